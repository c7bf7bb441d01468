ghost use Rattle.std.specs.Prelude.{◌≡◌, ◌+◌, ◌<◌, [], length, min, OnOk, IfOk, IsOkUnless};
ghost use Rattle.markup.specs.declared.fault.ParseFault.TheVariants.{Memory};
ghost use Rattle.bench_tokenizer.specs.Runs.{runs_and_members};

use html_queue::{BufferQueue, SmallCharSet};
use markup::ParseFault;

/// The characters at which a tokenizer stops in ordinary text: NUL, LF, CR, `&` and `<`.
const STOPS: SmallCharSet = SmallCharSet {
    bits: 1 | 1 << 10 | 1 << 13 | 1 << 38 | 1 << 60,
};

/// Takes all characters one by one, and counts them, up to the greatest number of 64 bits.
pub(crate) fn characters_by_next(queue: &mut BufferQueue) -> u64
    ensures all { queue.new.characters ≡ [] }
    ensures counted { queue.new.taken ≡ queue.old.taken + length queue.old.characters }
    ensures number { result ≡ min (length queue.old.characters) 0xffff_ffff_ffff_ffff }
{
    let mut count: u64 = 0;
    while queue.next().is_some() {
        count = count.saturating_add(1);
    }
    count
}

/// Takes all characters, each stop and each run between stops in one step, and counts the steps, up
/// to the greatest number of 64 bits.
pub(crate) fn runs_by_pop_except_from(queue: &mut BufferQueue) -> Result<u64, ParseFault>
    ensures all { OnOk result (queue.new.characters ≡ []) }
    ensures counted { OnOk result (queue.new.taken ≡ queue.old.taken + length queue.old.characters) }
    ensures fault { IsOkUnless result Memory }
    ensures number { IfOk result (λ n. n ≡ min (runs_and_members STOPS.bits queue.old.characters) 0xffff_ffff_ffff_ffff) }
{
    let mut count: u64 = 0;
    while queue.pop_except_from(STOPS)?.is_some() {
        count = count.saturating_add(1);
    }
    Ok(count)
}
