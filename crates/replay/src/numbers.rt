// A case of forward numbers, carried out by the port at any order: of numbers whose parts are of the type T.
ghost use Rattle.std.specs.Prelude.{◌≡◌, ◌≤◌, ◌^◌, suc};

use crate::comparison::compared;
use crate::forward_kinds::Kind;
use crate::number_words::{NumberWords, Reads};
use crate::words::{Answer, Case};
use forward::{Fwd, Number};
use listing::float_of;

// Where a number is `size` words: the first words of `got` become the answer.
pub(crate) fn carry_out<T: NumberWords>(kind: Kind, size: usize, case: &Case, got: &mut Answer)
where
    Fwd<T>: Reads,
    requires { (size ≡ 2 ^ suc T.order) × (size ≤ 16) }
{
    let x = Fwd::<T>::from_words(&case[..size]);
    let y = Fwd::<T>::from_words(&case[size..2 * size]);
    let at = kind.plain_at(size);
    let k = float_of(case[at]);
    match kind {
        Kind::Reads => x.read_out(got),
        Kind::Compare => got[0] = compare(x, y),
        Kind::CompareF64 => got[0] = compare_f64(x, k),
        _ => number(kind, x, y, k).to_words(&mut got[..size]),
    }
}

fn number<T: Number>(kind: Kind, x: Fwd<T>, y: Fwd<T>, k: f64) -> Fwd<T> {
    match kind {
        Kind::Constant => Fwd::constant(k),
        Kind::Var => Fwd::var(k),
        Kind::Zero => Fwd::zero(),
        Kind::One => Fwd::one(),
        Kind::Add => x + y,
        Kind::Sub => x - y,
        Kind::Mul => x * y,
        Kind::Div => x / y,
        Kind::Rem => x % y,
        Kind::MaxVal => x.max_val(y),
        Kind::MinVal => x.min_val(y),
        Kind::Neg => -x,
        Kind::Abs => x.abs(),
        Kind::AddF64 => x + k,
        Kind::SubF64 => x - k,
        Kind::MulF64 => x * k,
        Kind::DivF64 => x / k,
        Kind::RemF64 => x % k,
        Kind::SubFrom => k - x,
        Kind::Sqrt => x.sqrt(),
        _ => k / x,
    }
}

fn compare<T: Number>(x: Fwd<T>, y: Fwd<T>) -> u64 {
    let answers = [x == y, x != y, x < y, x <= y, x > y, x >= y];
    compared(answers, x.partial_cmp(&y))
}

fn compare_f64<T: Number>(x: Fwd<T>, k: f64) -> u64 {
    let answers = [
        x.eq_f64(k),
        x.ne_f64(k),
        x.lt_f64(k),
        x.le_f64(k),
        x.gt_f64(k),
        x.ge_f64(k),
    ];
    compared(answers, x.partial_cmp_f64(k))
}
