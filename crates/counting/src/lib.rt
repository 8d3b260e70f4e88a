//! Counting.
#![tactic(auto)]

ghost use Rattle.std.specs.Prelude.{◌≡◌, ◌≤◌, min};
ghost use Rattle.table_reduction_law.specs.Names.{binomial};

/// The number of sets of k among n things, or `most` where that is less. It takes k steps.
pub fn binomial_up_to(n: u32, k: u32, most: u64) -> u64
    requires { k ≤ n }
    ensures { result ≡ min most (binomial n k) }
{
    let rest = u64::from(n - k);
    let mut count: u64 = 1;
    for i in 0..u64::from(k) {
        let next = u128::from(count) * u128::from(rest + i + 1) / u128::from(i + 1);
        if next > u128::from(most) {
            return most;
        }
        count = next as u64;
    }
    count.min(most)
}
