//! Writers of the parts of a line: bytes, decimal numbers, and lists of them.
//!
//! Each writer appends its words, and says by a number for how many bytes there must be room. It
//! appends no more than that, so that a row of writers needs the sum of their numbers.
#![tactic(auto)]

ghost use Rattle.std.specs.Prelude.{◌≡◌, ◌+◌, ◌*◌, ◌≤◌, ◌++◌, length, take, codes, decimal};
ghost use Rattle.std.specs.Fmt.{signed_decimal};
ghost use Rattle.std.specs.List.{flat_map};
ghost use Rattle.arrayvec.specs.ArrayVec.{array_vec_len};
ghost use Rattle.so_lines.specs.Lines.{spaced, joined, payload_words};

use arrayvec::ArrayVec;
use itoa::Buffer;
use so_ids::{Payload, StateId};

/// A line in the making, of at most 512 bytes.
pub type LineBuf = ArrayVec<u8, 512>;

/// Appends bytes.
pub fn put(buf: &mut LineBuf, text: &[u8])
    requires { array_vec_len buf.old + length text.now ≤ 512 }
    ensures items { buf.new.items ≡ buf.old.items ++ text.now }
    ensures len { array_vec_len buf.new ≡ array_vec_len buf.old + length text.now }
{
    match buf.try_extend_from_slice(text) {
        Ok(()) => {}
        Err(_) => unreachable!(),
    }
}

/// Appends a number of 32 bits.
pub fn put_number(buf: &mut LineBuf, n: u32)
    requires { array_vec_len buf.old + 10 ≤ 512 }
    ensures items { buf.new.items ≡ buf.old.items ++ decimal n }
    ensures len { array_vec_len buf.new ≤ array_vec_len buf.old + 10 }
{
    put(buf, Buffer::new().format(n).as_bytes());
}

/// Appends a number of 64 bits.
pub fn put_wide(buf: &mut LineBuf, n: u64)
    requires { array_vec_len buf.old + 20 ≤ 512 }
    ensures items { buf.new.items ≡ buf.old.items ++ decimal n }
    ensures len { array_vec_len buf.new ≤ array_vec_len buf.old + 20 }
{
    put(buf, Buffer::new().format(n).as_bytes());
}

/// Appends a signed number, with a minus sign where it is below 0.
pub fn put_signed(buf: &mut LineBuf, n: i64)
    requires { array_vec_len buf.old + 20 ≤ 512 }
    ensures items { buf.new.items ≡ buf.old.items ++ signed_decimal n }
    ensures len { array_vec_len buf.new ≤ array_vec_len buf.old + 20 }
{
    put(buf, Buffer::new().format(n).as_bytes());
}

/// Appends a word and then a number, as `lane 3` from `lane ` and 3.
pub fn put_word(buf: &mut LineBuf, word: &[u8], n: u32)
    requires { array_vec_len buf.old + length word.now + 10 ≤ 512 }
    ensures items { buf.new.items ≡ buf.old.items ++ (word.now ++ decimal n) }
    ensures len { array_vec_len buf.new ≤ array_vec_len buf.old + length word.now + 10 }
{
    put(buf, word);
    put_number(buf, n);
}

/// Appends signed numbers, each after a space.
#[tactic(auto, unfolding(crate::specs::Lines::spaced))]
pub fn put_spaced(buf: &mut LineBuf, numbers: &[i64])
    requires { array_vec_len buf.old + 21 * length numbers.now ≤ 512 }
    ensures items { buf.new.items ≡ buf.old.items ++ spaced numbers.now }
    ensures len { array_vec_len buf.new ≤ array_vec_len buf.old + 21 * length numbers.now }
{
    for number in numbers {
        put(buf, b" ");
        put_signed(buf, *number);
    }
}

/// Appends the fields that a payload uses, each after a space.
pub fn put_payload(buf: &mut LineBuf, payload: &Payload)
    requires { array_vec_len buf.old + 84 ≤ 512 }
    ensures items { buf.new.items ≡ buf.old.items ++ payload_words payload.now }
    ensures len { array_vec_len buf.new ≤ array_vec_len buf.old + 84 }
{
    let used = usize::from(payload.used).min(4);
    put_spaced(buf, &payload.fields[..used]);
}

/// Appends the numbers of states, each after a comma.
fn put_commaed(buf: &mut LineBuf, states: &[StateId])
    requires { array_vec_len buf.old + 11 * length states.now ≤ 512 }
    ensures items { buf.new.items ≡ buf.old.items ++ flat_map (λ state. codes "," ++ decimal state.0) states.now }
    ensures len { array_vec_len buf.new ≤ array_vec_len buf.old + 11 * length states.now }
{
    for state in states {
        put_word(buf, b",", state.0);
    }
}

/// Appends the numbers of states joined by commas, or `-` where there are none.
#[tactic(auto, unfolding(crate::specs::Lines::joined))]
pub fn put_joined(buf: &mut LineBuf, states: &[StateId])
    requires { array_vec_len buf.old + 11 * length states.now + 1 ≤ 512 }
    ensures items { buf.new.items ≡ buf.old.items ++ joined states.now }
    ensures len { array_vec_len buf.new ≤ array_vec_len buf.old + 11 * length states.now + 1 }
{
    match states {
        [] => put(buf, b"-"),
        [first, rest @ ..] => {
            put_number(buf, first.0);
            put_commaed(buf, rest);
        }
    }
}

/// Appends a word, and then the numbers of the first `used` states joined by commas, or `-`.
pub fn put_states(buf: &mut LineBuf, word: &[u8], states: &[StateId; 16], used: u8)
    requires { array_vec_len buf.old + length word.now + 177 ≤ 512 }
    ensures items { buf.new.items ≡ buf.old.items ++ (word.now ++ joined (take used states.now)) }
    ensures len { array_vec_len buf.new ≤ array_vec_len buf.old + length word.now + 177 }
{
    put(buf, word);
    let used = usize::from(used).min(16);
    put_joined(buf, &states[..used]);
}
