//! The policy that pages are cleaned by.
ghost use Rattle.std.specs.Prelude.{◌≡◌, ◌++◌, ◌∷◌, [], None, Some, IfErr, IfOk, OnOk, map};
ghost use Rattle.std.specs.List.{after_first, before_first};
ghost use Rattle.std.specs.Str.{chars};
ghost use Rattle.html_clean.specs.Ready.{addition_parts, rule_names};
ghost use Rattle.html_normal.specs.declared.fault.NormalFault.TheVariants.{Memory as NoMemory};
ghost use Rattle.html_normal_program.specs.Program.{named};
ghost use Rattle.html_policy_text.specs.ReadyRules.{rules_of_ready};
ghost use Rattle.html_policy_text.specs.Rules.{rules_of};
ghost use Rattle.html_policy_text.specs.declared.ready.Ready.TheVariants.{TextAndLinks};
ghost use Rattle.markup.specs.declared.fault.ParseFault.TheVariants.{Memory};
ghost use Rattle.html_clean_program.specs.declared.fault.CleanFault.TheVariants.{Normal};
ghost use Rattle.html_clean_program.specs.Policies.{HasNoPolicy, HasNoStart, HasRules, IsNoPolicyIn, IsPolicyFault, IsPolicyIn};
ghost use Rattle.html_clean_program.specs.Policies.{IsRefusedBy, IsStart};
ghost use Rattle.html_clean_program.specs.Policies.{addition_of, is_colon, is_equals, refused, rule_of, with_extra, with_extras};
ghost use Rattle.html_clean_program.specs.Words.{extra_of};

use crate::fault::CleanFault;
use crate::words::{Asked, Extra, Kind};
use devices::Source;
use html_clean::Policy;
use html_normal::NormalFault;
use html_normal_program::Opener;
use html_policy_text::{PolicyFileFault, Ready, read_policy_file};
use markup::{LocalName, ParseFault, Text};
use std::alloc::Global;

/// Keeps an element with the attributes after a colon, as in `img:src,alt`.
fn keep(alloc: Global, policy: &mut Policy, word: &str) -> Result<(), ParseFault>
    ensures ok { OnOk result (map rule_names policy.new.kept.items ≡ map rule_names policy.old.kept.items ++ rule_of word.now ∷ []) }
    ensures same { policy.new ≡ record policy.old { kept = policy.new.kept } }
    ensures fault { IfErr result (λ fault. fault ≡ Memory) }
{
    let Some((element, list)) = word.split_once(':') else {
        return policy.keep(alloc, word, &[]);
    };
    let attributes: Vec<&str> = list.split(',').collect(alloc)?;
    policy.keep(alloc, element, attributes.as_slice())
}

/// Keeps an attribute of all elements.
fn keep_everywhere(alloc: Global, policy: &mut Policy, word: &str) -> Result<(), ParseFault>
    ensures ok { OnOk result (policy.new.everywhere.items ≡ policy.old.everywhere.items ++ chars word.now ∷ []) }
    ensures same { policy.new ≡ record policy.old { everywhere = policy.new.everywhere } }
    ensures fault { IfErr result (λ fault. fault ≡ Memory) }
{
    policy.everywhere.push(LocalName::from_str(alloc, word)?)?;
    Ok(())
}

/// What stands before the first colon, and what after it.
fn split_at_colon(word: &str) -> (&str, &str)
    ensures before { result.0.now ≡ before_first is_colon word.now }
    ensures after { result.1.now ≡ after_first is_colon word.now }
{
    match word.split_once(':') {
        Some(parts) => parts,
        None => (word, ""),
    }
}

/// What stands before the first equals sign, and what after it.
fn split_at_equals(word: &str) -> (&str, &str)
    ensures before { result.0.now ≡ before_first is_equals word.now }
    ensures after { result.1.now ≡ after_first is_equals word.now }
{
    match word.split_once('=') {
        Some(parts) => parts,
        None => (word, ""),
    }
}

/// Gives an element an attribute, as in `a:rel=nofollow`.
fn add(alloc: Global, policy: &mut Policy, word: &str) -> Result<(), ParseFault>
    ensures ok { OnOk result (map addition_parts policy.new.added.items ≡ map addition_parts policy.old.added.items
        ++ addition_of word.now ∷ []) }
    ensures same { policy.new ≡ record policy.old { added = policy.new.added } }
    ensures fault { IfErr result (λ fault. fault ≡ Memory) }
{
    let (element, attribute) = split_at_colon(word);
    let (name, value) = split_at_equals(attribute);
    policy.add(alloc, element, name, value)
}

/// Allows URLs of a scheme.
fn allow(alloc: Global, policy: &mut Policy, word: &str) -> Result<(), ParseFault>
    ensures ok { OnOk result (policy.new.schemes.items ≡ policy.old.schemes.items ++ chars word.now ∷ []) }
    ensures same { policy.new ≡ record policy.old { schemes = policy.new.schemes } }
    ensures fault { IfErr result (λ fault. fault ≡ Memory) }
{
    policy.schemes.push(Text::from_str(alloc, word)?)?;
    Ok(())
}

/// Keeps or adds what an option asks for.
fn extend(alloc: Global, policy: &mut Policy, kind: Kind, word: &str) -> Result<(), ParseFault>
    ensures ok { OnOk result (rules_of policy.new ≡ with_extra kind word.now (rules_of policy.old)) }
    ensures fault { IfErr result (λ fault. fault ≡ Memory) }
{
    match kind {
        Kind::Element => keep(alloc, policy, word),
        Kind::Attribute => keep_everywhere(alloc, policy, word),
        Kind::Beginning => policy.keep_beginning(alloc, word),
        Kind::Addition => add(alloc, policy, word),
        Kind::Scheme => allow(alloc, policy, word),
    }
}

/// Keeps or adds what all options ask for.
fn extend_all(alloc: Global, policy: &mut Policy, extras: &[Extra<'_>]) -> Result<(), ParseFault>
    ensures ok { OnOk result (rules_of policy.new ≡ with_extras (map extra_of extras.now) (rules_of policy.old)) }
    ensures fault { IfErr result (λ fault. fault ≡ Memory) }
{
    for extra in extras {
        extend(alloc, policy, extra.kind, extra.word)?;
    }
    Ok(())
}

/// The policy in the file of that name.
fn policy_in<File: Source + Drop, Opens: Opener<File>>(
    alloc: Global,
    opener: &Opens,
    name: &str,
) -> Result<Policy, PolicyFileFault>
    ensures ok { IfOk result (λ policy. IsPolicyIn (Opens.files opener.now name.now) (rules_of policy)) }
    ensures err { IfErr result (IsNoPolicyIn (Opens.files opener.now name.now)) }
{
    match opener.open(name) {
        Some(mut file) => read_policy_file(alloc, &mut file),
        None => Err(PolicyFileFault::Read),
    }
}

/// Why the file of that name has no policy.
fn policy_fault(alloc: Global, name: &str, fault: PolicyFileFault) -> CleanFault
    ensures { IsPolicyFault name.now fault result }
{
    match Text::from_str(alloc, name) {
        Ok(file) => CleanFault::Policy { file, fault },
        Err(_) => CleanFault::Normal(NormalFault::Memory),
    }
}

/// The ready policy for texts and links.
fn ready_policy(alloc: Global) -> Result<Policy, CleanFault>
    ensures ok { IfOk result (λ policy. rules_of policy ≡ rules_of_ready TextAndLinks) }
    ensures err { IfErr result (λ fault. fault ≡ Normal NoMemory) }
{
    match Ready::TextAndLinks.policy(alloc) {
        Ok(policy) => Ok(policy),
        Err(_) => Err(CleanFault::Normal(NormalFault::Memory)),
    }
}

/// The policy in the file that is named.
fn named_policy<File: Source + Drop, Opens: Opener<File>>(
    alloc: Global,
    opener: &Opens,
    name: &str,
) -> Result<Policy, CleanFault>
    ensures ok { IfOk result (λ policy. IsPolicyIn (Opens.files opener.now name.now) (rules_of policy)) }
    ensures err { IfErr result (HasNoStart (Opens.files opener.now) (name.now ∷ [])) }
{
    match policy_in(alloc, opener, name) {
        Ok(policy) => Ok(policy),
        Err(fault) => Err(policy_fault(alloc, name, fault)),
    }
}

/// The policy that the options are put to.
fn start<File: Source + Drop, Opens: Opener<File>>(
    alloc: Global,
    opener: &Opens,
    name: Option<&str>,
) -> Result<Policy, CleanFault>
    ensures ok { IfOk result (λ policy. IsStart (Opens.files opener.now) (named name.entry) (rules_of policy)) }
    ensures err { IfErr result (HasNoStart (Opens.files opener.now) (named name.entry)) }
{
    match name {
        Some(name) => named_policy(alloc, opener, name),
        None => ready_policy(alloc),
    }
}

/// Whether each word of a policy can be kept, or else the first that can't.
fn checked(policy: &Policy, is_document: bool) -> Result<(), &str>
    ensures ok { IfOk result (λ _. refused is_document policy.now ≡ None) }
    ensures err { IfErr result (λ word. refused is_document policy.now ≡ Some (chars word.now)) }
{
    if is_document {
        policy.checked()
    } else {
        policy.checked_for_fragments()
    }
}

/// The same, as an error of the program.
fn check(alloc: Global, policy: &Policy, is_document: bool) -> Result<(), CleanFault>
    ensures ok { IfOk result (λ _. refused is_document policy.now ≡ None) }
    ensures err { IfErr result (IsRefusedBy (refused is_document policy.now)) }
{
    let Err(word) = checked(policy, is_document) else {
        return Ok(());
    };
    match Text::from_str(alloc, word) {
        Ok(word) => Err(CleanFault::NeverKept(word)),
        Err(_) => Err(CleanFault::Normal(NormalFault::Memory)),
    }
}

/// The policy of the file that is named, or else the ready one, with what the options keep and add.
fn extended<File: Source + Drop, Opens: Opener<File>>(
    alloc: Global,
    opener: &Opens,
    asked: &Asked<'_>,
) -> Result<Policy, CleanFault>
    ensures ok { IfOk result (HasRules (Opens.files opener.now) (named asked.now.policy) (map extra_of asked.now.extras.items)) }
    ensures err { IfErr result (HasNoStart (Opens.files opener.now) (named asked.now.policy)) }
{
    let mut policy = start(alloc, opener, asked.policy)?;
    match extend_all(alloc, &mut policy, asked.extras.as_slice()) {
        Ok(()) => Ok(policy),
        Err(_) => Err(CleanFault::Normal(NormalFault::Memory)),
    }
}

/// The policy that is asked for.
///
/// Errors: [`CleanFault::Policy`] where the file has none, [`CleanFault::NeverKept`] of the first word that is never kept; out of memory.
pub(crate) fn policy_for<File: Source + Drop, Opens: Opener<File>>(
    alloc: Global,
    opener: &Opens,
    asked: &Asked<'_>,
) -> Result<Policy, CleanFault>
    ensures ok { IfOk result (HasRules (Opens.files opener.now) (named asked.now.policy) (map extra_of asked.now.extras.items)) }
    ensures allowed { IfOk result (λ policy. refused asked.now.is_document policy ≡ None) }
    ensures err { IfErr result (HasNoPolicy (Opens.files opener.now) (named asked.now.policy) (map extra_of asked.now.extras.items)
        asked.now.is_document) }
{
    let policy = extended(alloc, opener, asked)?;
    check(alloc, &policy, asked.is_document)?;
    Ok(policy)
}
