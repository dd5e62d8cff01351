// Answers in numbers.
ghost use Rattle.std.specs.Prelude.{◌-◌, ◌≤◌};
ghost use Rattle.store.specs.Told.{Told};

use tree::raw::place;
use tree::refusal::Refusal;

// 0 and the numbers, or a refusal's number and its tree.
pub(crate) fn tell<const N: usize>(
    report: Result<[usize; N], Refusal>,
    told: &mut [usize; N],
) -> u32
    requires { 1 ≤ N }
    ensures { Told (λ numbers. numbers) (N - 1) report.entry result told.new }
{
    match report {
        Ok(numbers) => {
            *told = numbers;
            0
        }
        Err(refusal) => {
            let mut tree = [0; N];
            tree[0] = place(refusal.tree);
            *told = tree;
            refusal.number
        }
    }
}
