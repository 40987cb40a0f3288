// Scores by rank that do not fall or stay.
ghost use Rattle.std.specs.Prelude.{◌≡◌, List, ℕ, ◌<◌, length, get_or, ℤ, pos};
ghost use Rattle.spec.specs.ResultRecord.{rising};

// One of k scores stands above the one before it: `score` gives each of them.
pub fn scores_rise<F: Fn(usize) -> i32>(k: usize, score: F) -> bool
    requires { (i : ℕ) → i < k → F.pre score i }
    ensures { (ys : List ℤ) → length ys ≡ k → ((i : ℕ) (y : ℤ) → i < k → F.post score i y → y ≡ get_or ys i (pos 0)) → result ≡ rising ys }
{
    for i in 1..k {
        let above = score(i);
        if score(i - 1) < above {
            return true;
        }
    }
    false
}
