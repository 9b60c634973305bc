// A reply as text: whole numbers in decimal with commas, closed by 13, 10. It is written into a lent buffer only if it fits.
ghost use Rattle.std.specs.Prelude.{◌≡◌, [], ◌∷◌, ◌+◌, ◌≤◌, length};
ghost use Rattle.decimals.specs.Puts.{Puts};
ghost use Rattle.hpgl.specs.Machine as M;
ghost use Rattle.hpgl.specs.Replies as T;
ghost use Rattle.hpgl.specs.Valid.{ValidReply, ValidWork};
ghost use Rattle.replies.specs.Fetch.{Fetches};

use decimals::{put_byte, put_whole};
use hpgl::{MOST_REPLY, Reply, Work};

const COMMA: u8 = 44;

const CLOSING: u8 = 13;

const LINE_FEED: u8 = 10;

// The numbers with commas between them, closed by 13, 10.
fn put_numbers(out: &mut [u8], numbers: &[i64]) -> usize
    requires { length (T.text_of numbers.now) ≤ length out.old }
    ensures { Puts (T.text_of numbers.now) out.old out.new 0 result }
{
    let Some((last, others)) = numbers.split_last() else {
        return 0;
    };
    let mut end = 0;
    for z in others {
        end = put_whole(out, end, *z, COMMA);
    }
    end = put_whole(out, end, *last, CLOSING);
    put_byte(out, end, LINE_FEED)
}

// The whole text, from the start of a buffer that is long enough.
fn put_reply(out: &mut [u8], r: Reply) -> usize
    requires valid_reply { ValidReply r }
    requires r_in_bounds { length (T.reply_text r) ≤ length out.old }
    ensures { Puts (T.reply_text r) out.old out.new 0 result }
{
    let numbers = [r.first, r.second, r.third, r.fourth];
    put_numbers(out, &numbers[..r.count as usize])
}

// Why a reply is not written: the buffer is shorter than it is.
#[derive(Clone, Copy)]
pub struct ShortBuffer;

// A reply that waits. Its text is made aside first: only then is it known whether the buffer is long enough.
fn write_reply(r: Reply, out: &mut [u8]) -> Result<usize, ShortBuffer>
    requires { ValidReply r }
    ensures { Fetches r out.old out.new result }
{
    let mut aside = [0; MOST_REPLY];
    let length = put_reply(&mut aside, r);
    if length <= out.len() {
        Ok(put_reply(out, r))
    } else {
        Err(ShortBuffer)
    }
}

// How many bytes were written: with no reply waiting none.
pub fn fetch(w: Work, out: &mut [u8]) -> Result<usize, ShortBuffer>
    requires { ValidWork w }
    ensures { Fetches (M.replied w) out.old out.new result }
{
    if let Work::Answer(r) = w {
        write_reply(r, out)
    } else {
        Ok(0)
    }
}
