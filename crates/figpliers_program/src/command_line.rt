//! The commands of the program and their options.
ghost use Rattle.std.specs.Prelude.{◌≡◌, IfOk};
ghost use Rattle.clap.specs.Simple.{app_of};
ghost use Rattle.clap.specs.Walk.{rule_of};
ghost use Rattle.clap.specs.declared.builder.action.ArgAction.TheVariants.{Append};
ghost use Rattle.figpliers_program.specs.CommandLine as spec;
ghost use Rattle.figpliers_program.specs.CommandLine.{IsLocal, IsPlainOption, flag_rule, option_rule, output_rule, pages_command};
ghost use Rattle.figpliers_program.specs.CommandLine.{pages_rule, with_pages};

use clap::{Arg, ArgAction, Command};
use std::alloc::{AllocError, Global};

/// An option without a value.
fn flag<'a>(alloc: Global, name: &'a str, help: &'a str) -> Arg<'a>
    ensures rule { rule_of result ≡ flag_rule name.entry.now }
    ensures plain { IsPlainOption result }
{
    Arg::new(alloc, name)
        .long(name)
        .action(ArgAction::SetTrue)
        .help(help)
}

/// An option with a value.
fn option<'a>(alloc: Global, name: &'a str, value: &'a str, help: &'a str) -> Arg<'a>
    ensures rule { rule_of result ≡ option_rule name.entry.now }
    ensures plain { IsPlainOption result }
{
    Arg::new(alloc, name)
        .long(name)
        .value_name(value)
        .action(ArgAction::Set)
        .help(help)
}

/// An option with a value that may be used several times.
fn several<'a>(alloc: Global, name: &'a str, value: &'a str, help: &'a str) -> Arg<'a>
    ensures rule { rule_of result ≡ spec.several_rule name.entry.now }
    ensures plain { IsPlainOption result }
{
    option(alloc, name, value, help).action(ArgAction::Append)
}

/// The files with the pages.
fn pages<'a>(alloc: Global, action: ArgAction) -> Arg<'a>
    ensures rule { rule_of result ≡ pages_rule action }
    ensures plain { IsPlainOption result }
{
    Arg::new(alloc, "files")
        .value_name("FILE")
        .action(action)
        .help("HTML pages; standard input, where none is named or for the name -")
}

/// Where to write to.
fn output<'a>(alloc: Global) -> Arg<'a>
    ensures rule { rule_of result ≡ output_rule }
    ensures plain { IsPlainOption result }
{
    option(
        alloc,
        "output",
        "FILE",
        "Write to this file in place of standard output",
    )
    .short('o')
}

/// A command with the options that say how pages are read.
fn reads<'a>(alloc: Global, command: Command<'a>) -> Result<Command<'a>, AllocError>
    ensures app { IfOk result (λ made. app_of made ≡ spec.with_reading (app_of command.entry)) }
    ensures local { IsLocal command.entry → IfOk result IsLocal }
{
    let encoding = option(
        alloc,
        "encoding",
        "LABEL",
        "Read pages in this encoding, unless they have a byte order mark",
    );
    let utf_8 = flag(
        alloc,
        "utf-8",
        "Read pages as UTF-8, and refuse what is not",
    );
    let lossy = flag(
        alloc,
        "lossy",
        "Read pages as UTF-8, and what is not as U+FFFD",
    );
    command.arg(encoding)?.arg(utf_8)?.arg(lossy)
}

/// A command with the options of all commands that read pages, and the pages.
fn reads_pages<'a>(
    alloc: Global,
    command: Command<'a>,
    action: ArgAction,
) -> Result<Command<'a>, AllocError>
    ensures app { IfOk result (λ made. app_of made ≡ with_pages action (app_of command.entry)) }
    ensures local { IsLocal command.entry → IfOk result IsLocal }
{
    reads(alloc, command)?
        .arg(output(alloc))?
        .arg(pages(alloc, action))
}

/// A command over pages, with its options.
fn over_pages<'a>(
    alloc: Global,
    name: &'a str,
    about: &'a str,
    action: ArgAction,
) -> Result<Command<'a>, AllocError>
    ensures app { IfOk result (λ made. app_of made ≡ pages_command name.entry.now action) }
    ensures local { IfOk result IsLocal }
{
    reads_pages(alloc, Command::new(alloc, name).about(about), action)
}

/// The command `tree`.
fn tree<'a>(alloc: Global) -> Result<Command<'a>, AllocError>
    ensures app { IfOk result (λ made. app_of made ≡ spec.tree_command) }
    ensures local { IfOk result IsLocal }
{
    let fragment = option(
        alloc,
        "fragment",
        "NAME",
        "Read the page as a fragment in an HTML element of this name",
    );
    let about = "Print the tree of a page, line by line, as the tests of html5lib do";
    over_pages(alloc, "tree", about, ArgAction::Set)?.arg(fragment)
}

/// The selectors of the command `select`.
fn selector<'a>(alloc: Global) -> Arg<'a>
    ensures rule { rule_of result ≡ spec.selector_rule }
    ensures plain { IsPlainOption result }
{
    Arg::new(alloc, "selector")
        .value_name("SELECTOR")
        .required(true)
        .action(ArgAction::Set)
        .help("Selectors as in CSS, such as 'ul > li:first-child, a[href^=http]'")
}

/// A command with the options that say what is printed of elements.
fn shows<'a>(alloc: Global, command: Command<'a>) -> Result<Command<'a>, AllocError>
    ensures app { IfOk result (λ made. app_of made ≡ spec.with_shows (app_of command.entry)) }
    ensures local { IsLocal command.entry → IfOk result IsLocal }
{
    let text = flag(
        alloc,
        "text",
        "Print the text in each element in place of its HTML",
    );
    let attribute = option(
        alloc,
        "attr",
        "NAME",
        "Print the value of this attribute of each element that has it",
    );
    let count = flag(alloc, "count", "Print how many elements there are");
    let json = flag(
        alloc,
        "json",
        "Print an object of JSON for each element: its file, its name and its HTML",
    );
    command.arg(text)?.arg(attribute)?.arg(count)?.arg(json)
}

/// The command `select`.
fn select<'a>(alloc: Global) -> Result<Command<'a>, AllocError>
    ensures app { IfOk result (λ made. app_of made ≡ spec.select_command) }
    ensures local { IfOk result IsLocal }
{
    let command = Command::new(alloc, "select")
        .about("Print the elements of pages that selectors select; status 1 where there is none")
        .arg(selector(alloc))?;
    reads_pages(alloc, shows(alloc, command)?, ArgAction::Append)
}

/// A command with the options that say how links are printed.
fn lists<'a>(alloc: Global, command: Command<'a>) -> Result<Command<'a>, AllocError>
    ensures app { IfOk result (λ made. app_of made ≡ spec.with_listing (app_of command.entry)) }
    ensures local { IsLocal command.entry → IfOk result IsLocal }
{
    let base = option(
        alloc,
        "base",
        "URL",
        "Print absolute links, relative to this URL where the page has no base of its own",
    );
    let anchors = flag(
        alloc,
        "anchors",
        "Print links to a place in the page itself too",
    );
    let kinds = flag(
        alloc,
        "kind",
        "Print the attribute before each link: href, src, srcset, action, data or poster",
    );
    let json = flag(
        alloc,
        "json",
        "Print an object of JSON for each link: its file, its kind, its element and its URL",
    );
    command.arg(base)?.arg(anchors)?.arg(kinds)?.arg(json)
}

/// The option of `links` by which the names of files are printed.
fn with_names<'a>(alloc: Global) -> Arg<'a>
    ensures rule { rule_of result ≡ spec.with_names_rule }
    ensures plain { IsPlainOption result }
{
    let option = flag(
        alloc,
        "with-filename",
        "Print the name of the file before each link, as where there are several files",
    );
    option.short('H')
}

/// A command with the options that say whether the names of files are printed; `-h` is one of them, so help has no short name.
fn names<'a>(alloc: Global, command: Command<'a>) -> Result<Command<'a>, AllocError>
    ensures app { IfOk result (λ made. app_of made ≡ spec.with_naming (app_of command.entry)) }
    ensures local { IsLocal command.entry → IfOk result IsLocal }
{
    let without_names = flag(alloc, "no-filename", "Print no names of files").short('h');
    let help = Arg::new(alloc, "help")
        .long("help")
        .action(ArgAction::Help)
        .help("Print help");
    command
        .disable_help_flag(true)
        .arg(with_names(alloc))?
        .arg(without_names)?
        .arg(help)
}

/// The command `links`.
fn links<'a>(alloc: Global) -> Result<Command<'a>, AllocError>
    ensures app { IfOk result (λ made. app_of made ≡ spec.links_command) }
    ensures local { IfOk result IsLocal }
{
    let about = "List where pages lead, in href, src, srcset, action, data and poster";
    let command = over_pages(alloc, "links", about, ArgAction::Append)?;
    names(alloc, lists(alloc, command)?)
}

/// A command with the options that say which policy pages are cleaned by, and how they are read.
fn with_policy<'a>(alloc: Global, command: Command<'a>) -> Result<Command<'a>, AllocError>
    ensures app { IfOk result (λ made. app_of made ≡ spec.with_policy (app_of command.entry)) }
    ensures local { IsLocal command.entry → IfOk result IsLocal }
{
    let policy = option(
        alloc,
        "policy",
        "FILE",
        "Keep what the policy in this file keeps, in place of text-and-links",
    );
    let printed = option(
        alloc,
        "print-policy",
        "NAME",
        "Alone: print a ready policy: text-alone, text-and-links, user-content or mail",
    );
    let document = flag(
        alloc,
        "document",
        "Clean pages as whole documents, not as fragments",
    );
    let table = option(
        alloc,
        "table",
        "FILE",
        "Read character references by the table in this file; without it five names are known",
    );
    command.arg(policy)?.arg(printed)?.arg(document)?.arg(table)
}

/// A command with the options that say what is kept and added beside what the policy says.
fn with_extras<'a>(alloc: Global, command: Command<'a>) -> Result<Command<'a>, AllocError>
    ensures app { IfOk result (λ made. app_of made ≡ spec.with_extras (app_of command.entry)) }
    ensures local { IsLocal command.entry → IfOk result IsLocal }
{
    let element = several(
        alloc,
        "element",
        "NAME[:ATTRIBUTE,..]",
        "Keep elements of this name too, with these attributes",
    );
    let attribute = several(
        alloc,
        "attribute",
        "NAME",
        "Keep attributes of this name of all elements too",
    );
    let beginning = several(
        alloc,
        "beginning",
        "TEXT",
        "Keep attributes whose names begin with this text of all elements too",
    );
    let added = several(
        alloc,
        "add",
        "ELEMENT:NAME=VALUE",
        "Give elements of this name an attribute",
    );
    let scheme = several(alloc, "scheme", "NAME", "Keep URLs of this scheme too");
    command
        .arg(element)?
        .arg(attribute)?
        .arg(beginning)?
        .arg(added)?
        .arg(scheme)
}

/// The files that the command `clean` reads.
fn cleaned_pages<'a>(alloc: Global) -> Arg<'a>
    ensures rule { rule_of result ≡ pages_rule Append }
    ensures plain { IsPlainOption result }
{
    Arg::new(alloc, "files")
        .value_name("FILE")
        .action(ArgAction::Append)
        .help("HTML pages in UTF-8; standard input, where none is named")
}

/// The command `clean`, for its help: the words after it are read by `html_clean_program`.
fn clean<'a>(alloc: Global) -> Result<Command<'a>, AllocError>
    ensures app { IfOk result (λ made. app_of made ≡ spec.clean_command) }
    ensures local { IfOk result IsLocal }
{
    let command = Command::new(alloc, "clean").about(
        "Print what a policy keeps of pages: never scripts, styles or event handlers",
    );
    let command = with_policy(alloc, command)?;
    with_extras(alloc, command)?
        .arg(output(alloc))?
        .arg(cleaned_pages(alloc))
}

/// The program with no command.
fn program<'a>(alloc: Global) -> Result<Command<'a>, AllocError>
    ensures app { IfOk result (λ made. app_of made ≡ spec.program) }
    ensures local { IfOk result IsLocal }
{
    let command = Command::new(alloc, "figpliers")
        .version("0.1.0")
        .propagate_version(true)
        .bin_name("figpliers")?;
    Ok(
        command
            .about(
                "Parse errors, trees, links, texts, Markdown, checks, elements, normal texts and clean texts of HTML pages",
            )
            .after_help(
                "Status: 0 done; 1 a page has parse errors or is not read back, or no element was selected; 2 a fault",
            )
            .subcommand_required(true),
    )
}

/// A command with the commands that have no options of their own but `errors` and `normal`.
fn with_plain<'a>(alloc: Global, command: Command<'a>) -> Result<Command<'a>, AllocError>
    ensures { IfOk result (λ made. app_of made ≡ spec.with_plain (app_of command.entry)) }
{
    let markdown = over_pages(
        alloc,
        "markdown",
        "Print pages as Markdown: CommonMark, with tables as GitHub's",
        ArgAction::Append,
    )?;
    let text = over_pages(
        alloc,
        "text",
        "Print the text of pages, without scripts and style sheets",
        ArgAction::Append,
    )?;
    let check = over_pages(
        alloc,
        "check",
        "Say whether what is written of pages is read back as it was, and if not where; status 1 where one is not",
        ArgAction::Append,
    )?;
    command
        .subcommand(markdown)?
        .subcommand(text)?
        .subcommand(check)
}

/// The command line of the program.
pub fn command_line<'a>(alloc: Global) -> Result<Command<'a>, AllocError>
    ensures { IfOk result (λ made. app_of made ≡ spec.figpliers) }
{
    let errors = over_pages(
        alloc,
        "errors",
        "List the parse errors of pages, as FILE:LINE:COLUMN: CODE; status 1 where there is one",
        ArgAction::Append,
    )?;
    let normal = over_pages(
        alloc,
        "normal",
        "Print the normal text of pages",
        ArgAction::Append,
    )?;
    let command = program(alloc)?
        .subcommand(errors)?
        .subcommand(tree(alloc)?)?
        .subcommand(links(alloc)?)?;
    with_plain(alloc, command)?
        .subcommand(select(alloc)?)?
        .subcommand(normal)?
        .subcommand(clean(alloc)?)
}
