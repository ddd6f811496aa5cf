// What is printed of a share, put into a buffer.
#![tactic(auto)]

ghost use Rattle.std.specs.Prelude.{◌≤◌};
ghost use Rattle.text_numbers.specs.Inner.{Put};
ghost use Rattle.share_report.specs.Report.{share_line};

use call_answers::Share;
use refusals_text::put_key_number;
use text_numbers::put_byte;

// `share=666 remainder=2 divisor=3`
pub fn put_share(out: &mut [u8], x: Share) -> usize
    ensures put { Put (share_line x) 0 out.old result out.new }
    ensures upper_bound { result ≤ 109 }
{
    let q = put_key_number(out, 0, b"share=", x.quotient);
    let r = put_key_number(out, q, b" remainder=", x.remainder);
    let d = put_key_number(out, r, b" divisor=", x.divisor);
    put_byte(out, d, b'\n');
    d + 1
}
