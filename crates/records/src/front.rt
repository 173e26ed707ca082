// Where one record of a sample ends and the next begins.
ghost use Rattle.std.specs.Prelude.{◌≡◌, ◌+◌, ◌<◌, ◌≤◌, length, drop, unwrap_or, IfSome};
ghost use Rattle.records.specs.Front.{front_size};

use blocks::bytes::word_at;

// The length of the record that stands at an offset of a sample; None if no whole record stands there.
pub fn front_size(file: &[u8], at: usize) -> Option<usize>
    requires { at ≤ length file.now }
    ensures size { unwrap_or result 0 ≡ front_size (drop at file.now) }
    ensures some { IfSome result (λ n. 0 < n) }
    ensures fits { at + unwrap_or result 0 ≤ length file.now }
{
    let left = file.len() - at;
    if left < 2 {
        return None;
    }
    let n = usize::from(word_at(file, at));
    if 0 < n && n <= left { Some(n) } else { None }
}
