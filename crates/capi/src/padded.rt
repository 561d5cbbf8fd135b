// An unpadded circuit's listing, padded to the trace length.
ghost use Rattle.std.specs.Prelude.{◌≡◌};
ghost use Rattle.refusal.specs.Refusal.{answer_number};
ghost use Rattle.capi.specs.Padded.{pad_call, pad_count, pad_out};

use padding::padding::pad;
use refusal::{Refusal, outcome};

// Reads a listing, writes the padded one to the front of `out` and its number of words to `count`. 20,
// then the circuit's own numbers, then 10 for `out` or `count`. A refusal leaves `out` as it was and a
// count of 0, where there is room.
pub fn kinchoyu_pad(listing: &[u64], out: &mut [u64], count: &mut [u64]) -> Result<(), Refusal>
    ensures value { answer_number result ≡ pad_call listing.now out.old count.old }
    ensures out_after { out.new ≡ pad_out listing.now out.old count.old }
    ensures count_after { count.new ≡ pad_count listing.now out.old count.old }
{
    if count.is_empty() {
        return outcome(&pad(listing, &mut out[..0]));
    }
    let answer = pad(listing, out);
    count[0] = answer.unwrap_or(0);
    outcome(&answer)
}
