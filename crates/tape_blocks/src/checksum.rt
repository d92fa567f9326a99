ghost use Rattle.std.specs.Prelude.{◌≡◌, ◌%◌, ◌≤◌, length, sum};
ghost use Rattle.tape_values.specs.Tape.{tape_limit};

/// The sum of the bytes modulo 256, which is 0 over a whole block.
pub(crate) fn byte_sum(bytes: &[u8]) -> u32
    requires { length bytes.now ≤ tape_limit }
    ensures { result ≡ sum bytes.now % 256 }
{
    bytes.iter().map(|byte| u32::from(*byte)).sum::<u32>() % 256
}
