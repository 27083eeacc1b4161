// The one search over rows by number: whether some row passes a test, the lowest that does, how many do.
ghost use Rattle.std.specs.Prelude.{◌≡◌, ◌<◌, ℕ, Bool, length, IfSome};
ghost use Rattle.theory.specs.Lists.{those};
ghost use Rattle.theory.specs.Search.{any, lowest_passing, Tests};

// Some number below n passes the test.
pub fn any<F: Fn(usize) -> bool>(n: usize, test: F) -> bool
    requires { (k : ℕ) → k < n → F.pre test k }
    ensures { (p : ℕ → Bool) → Tests (F.post test) n p → result ≡ any p n }
{
    for k in 0..n {
        if test(k) {
            return true;
        }
    }
    false
}

// The lowest number below n that passes the test, if there is one.
pub fn first<F: Fn(usize) -> bool>(n: usize, test: F) -> Option<usize>
    requires { (k : ℕ) → k < n → F.pre test k }
    ensures below { IfSome result (λ row. row < n) }
    ensures row { (p : ℕ → Bool) → Tests (F.post test) n p → result ≡ lowest_passing p n }
{
    for k in 0..n {
        if test(k) {
            return Some(k);
        }
    }
    None
}

// How many numbers below n pass the test.
pub fn count<F: Fn(usize) -> bool>(n: usize, test: F) -> usize
    requires { (k : ℕ) → k < n → F.pre test k }
    ensures { (p : ℕ → Bool) → Tests (F.post test) n p → result ≡ length (those p (λ k. k) n 0) }
{
    let mut count = 0;
    for k in 0..n {
        if test(k) {
            count += 1;
        }
    }
    count
}
