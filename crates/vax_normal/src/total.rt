ghost use Rattle.std.specs.Prelude.{◌≡◌, ◌<◌, sum, take, slice_set};

/// The sum of R0 to R14.
pub fn sum_of(r: &[u32; 16]) -> u64
    ensures { result ≡ sum (take 15 r.now) }
{
    let mut total = 0;
    for register in &r[..15] {
        total += u64::from(*register);
    }
    total
}

/// Sets one of R0 to R14; the sum of these goes on by that.
#[inline(always)]
pub fn set(r: &mut [u32; 16], n: u8, v: u32, total: u64) -> u64
    requires low { n < 15 }
    requires sum { total ≡ sum (take 15 r.old) }
    ensures registers { r.new ≡ slice_set r.old n v }
    ensures sum { result ≡ sum (take 15 r.new) }
{
    let n = usize::from(n);
    let old = r[n];
    r[n] = v;
    total - u64::from(old) + u64::from(v)
}
