//! Memory for bytes, and no more than is asked for.
ghost use Rattle.std.specs.Prelude.{◌≡◌, ◌≤◌, max, vec_len, vec_capacity, IfOk, OnOk, OnErr};

use crate::NoMemory;

/// Makes room for so many bytes in all, takes memory for no more, and returns how many these are. A vector grows to twice its size by
/// itself, which a bound on memory couldn't promise.
pub fn reserve(bytes: &mut Vec<u8>, size: usize) -> Result<usize, NoMemory>
    requires { vec_len bytes.old ≤ size }
    ensures answer { IfOk result (λ room. room ≡ size) }
    ensures exact { OnOk result (vec_capacity bytes.new ≡ max (vec_capacity bytes.old) size) }
    ensures same { bytes.new.items ≡ bytes.old.items }
    ensures refused { OnErr result (vec_capacity bytes.new ≡ vec_capacity bytes.old) }
{
    bytes.reserve_exact(size - bytes.len())?;
    Ok(size)
}
