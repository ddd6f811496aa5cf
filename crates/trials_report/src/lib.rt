// What is printed of tried orders, put into a buffer.
#![tactic(auto)]

ghost use Rattle.std.specs.Prelude.{◌+◌, ◌*◌, ◌≤◌, ◌<◌, ◌^◌, length};
ghost use Rattle.text_numbers.specs.Inner.{Put};
ghost use Rattle.trials_report.specs.Report.{result_line, result_lines};

use refusals_text::put_key_number;
use text_numbers::put_byte;

// `order=0 result=2`: at most 25 bytes.
fn put_result(out: &mut [u8], at: usize, order: usize, res: u8) -> usize
    requires { (at < 2 ^ 30) × (order < 10 ^ 7) }
    ensures put { Put (result_line order res) at out.old result out.new }
    ensures upper_bound { result ≤ at + 25 }
{
    let a = put_key_number(out, at, b"order=", order);
    let b = put_key_number(out, a, b" result=", res as usize);
    put_byte(out, b, b'\n');
    b + 1
}

// A line for each result of a part of the orders, the first of which has that number.
pub fn put_results(out: &mut [u8], first: usize, results: &[u8]) -> usize
    requires { (first ≤ 2 ^ 21) × (length results.now ≤ 4096) }
    ensures put { Put (result_lines first results.now) 0 out.old result out.new }
    ensures upper_bound { result ≤ 25 * length results.now }
{
    let mut at = 0;
    for (i, result) in results.iter().enumerate() {
        at = put_result(out, at, first + i, *result);
    }
    at
}
