// The start, where no bit is decided: the bottom's costs, and the windows of the empty prefix.
ghost use Rattle.std.specs.Prelude.{◌≡◌, false, ◌+◌, ◌*◌, ◌≤◌, length};
ghost use Rattle.spec.specs.Score.{taken};
ghost use Rattle.spec.specs.Faults.{some};
ghost use Rattle.spec.specs.Refusals.{out_of_range};
ghost use Rattle.laws.specs.Windows.{F};
ghost use Rattle.laws.specs.Soft.{four_at};
ghost use Rattle.tables.specs.Tab.{slot_start, WroteRows};
ghost use Rattle.tables.specs.Start.{first_f, StartSize, Started, Untouched};

use crate::words::place;
use ranges::taken_at;
use windows::start::{first_costs, first_node};

// The costs of the q bottom nodes, from the soft values as they are taken, to the nodes from dst on.
fn lay_costs(t: &mut [u32], soft: &[i16], dst: usize, q: usize, arikan: bool)
    requires { (16 * (dst + q) ≤ length t.old) × (length soft.now ≡ 4 * q) × (some out_of_range soft.now ≡ false) }
    ensures { WroteRows (λ i. F arikan (four_at (taken soft.now) q i)) (16 * dst) 16 q
        t.old t.new }
{
    for i in 0..q {
        let a = taken_at(soft, i);
        let b = taken_at(soft, i + q);
        let c = taken_at(soft, i + 2 * q);
        let d = taken_at(soft, i + 3 * q);
        first_costs(t, 16 * (dst + i), a, b, c, d, arikan);
    }
}

// The windows of w nodes at dst, from those of their children at src.
fn first_pass(t: &mut [u32], src: usize, dst: usize, w: usize, arikan: bool)
    requires { (16 * (src + 2 * w) ≤ length t.old) × (dst + w ≤ src) }
    ensures { WroteRows (first_f arikan src w t.old) (16 * dst) 16 w t.old t.new }
{
    for i in 0..w {
        first_node(
            t,
            16 * (src + i),
            16 * (src + w + i),
            16 * (dst + i),
            arikan,
        );
    }
}

// A layer of w nodes, in slot 0.
#[tactic(auto, using(crate::proofs::Places::slot_apart, crate::proofs::Places::slot_child))]
fn first_layer(t: &mut [u32], w: usize, l: usize, arikan: bool)
    requires { (w ≤ 1024) × (1 ≤ l) × (l ≤ 32) × (16 * slot_start (2 * w) l l ≤ length t.old) }
    ensures { WroteRows (first_f arikan (slot_start (2 * w) l 0) w t.old) (16 * slot_start w l 0) 16 w
        t.old t.new }
{
    let src = place(2 * w, l, 0);
    let dst = place(w, l, 0);
    first_pass(t, src, dst, w, arikan);
}

// The bottom's costs, and the windows of the empty prefix of every layer, from the bottom to the top.
// The bottom's windows are its costs. q is the number of bottom nodes.
pub fn start(t: &mut [u32], soft: &[i16], deep: usize, q: usize, l: usize, h: usize, arikan: bool)
    requires { StartSize deep q l h t.old soft.now }
    ensures { Started arikan deep l h (taken soft.now) t.new
        × Untouched deep l h t.old t.new }
{
    lay_costs(t, soft, h, q, arikan);
    t.copy_within(16 * h..16 * (h + q), 16 * place(q, l, 0));
    for d in (0..deep).rev() {
        first_layer(t, 1 << d, l, arikan);
    }
}
