// The copy from one slice to another, of bytes, tokens or words.
//
// The loop becomes memcpy when it is compiled, where `copy_from_slice` becomes memmove, which a host would have to bring. Assumes nothing.
#![tactic(auto)]

ghost use Rattle.std.specs.Prelude.{◌≡◌, ◌+◌, ◌≤◌, length, drop};
ghost use Rattle.std.proofs.Math.Seq.{paste};

// Copies n elements of src, from a place on, to a place of dst; what stands before and behind them is as it was.
pub fn copy<T: Copy>(dst: &mut [T], at: usize, src: &[T], from: usize, n: usize)
    requires { (at + n ≤ length dst.old) × (from + n ≤ length src.now) }
    ensures { dst.new ≡ paste dst.old at (drop from src.now) n }
{
    for i in 0..n {
        dst[at + i] = src[from + i];
    }
}
