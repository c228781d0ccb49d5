// Writing a number of a file, into bytes that have room for it.
ghost use Rattle.std.specs.Prelude.{◌≡◌, ◌+◌, ◌≤◌, length};
ghost use Rattle.std.proofs.lemmas.List.Edits.{sets};
ghost use Rattle.number.specs.Number.{written_of};

use number::{TOP, number_len};

// Writes a number at an offset, and answers the offset after it.
pub fn put_number(out: &mut [u8], start: usize, value: u64) -> usize
    requires { start + length (written_of value) ≤ length out.old }
    ensures { (result ≡ start + length (written_of value)) × (out.new ≡ sets out.old start (written_of value)) }
{
    let end = start + number_len(value);
    let mut rest = value;
    // All bytes but the last have the top bit set.
    let others = &mut out[start..end - 1];
    for byte in others.iter_mut() {
        *byte = (rest % TOP + TOP) as u8;
        rest /= TOP;
    }
    out[end - 1] = rest as u8;
    end
}
