// Bytes that are put where a record's triples say.
ghost use Rattle.std.specs.Prelude.{◌≡◌, ◌+◌, ◌*◌, ◌≤◌, length, slice_set};
ghost use Rattle.records.specs.Bytes.{patched};

use blocks::bytes::word_at;

// An address past the end is passed over. By an index: tried with `get_mut`, whose contract gives the proof no equation of what the slice ends as.
fn put(s: &mut [u8], at: usize, v: u8)
    ensures { s.new ≡ slice_set s.old at v }
{
    if at < s.len() {
        s[at] = v;
    }
}

pub fn patch(item: &[u8], at: usize, count: usize, s: &mut [u8])
    requires { at + 3 * count ≤ length item.now }
    ensures { s.new ≡ patched item.now at count s.old }
{
    for i in 0..count {
        let triple = at + 3 * i;
        let place = usize::from(word_at(item, triple));
        put(s, place, item[triple + 2]);
    }
}
