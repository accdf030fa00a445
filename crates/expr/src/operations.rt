// The operations table, with no tape in it.
ghost use Rattle.std.specs.Prelude.{◌≡◌};
ghost use Rattle.tape.specs.Operations.{known, apply};
ghost use Rattle.expr.specs.Inner.{row_in};
ghost use Rattle.expr.specs.Outcome.{given};

// The operations' numbers, in the table's order. They are bytes and no enum: document 01 has an operation as a byte, of
// which `record` refuses the numbers that are none of these.
pub const LEAF: u8 = 0;

pub const ADD: u8 = 1;

pub const SUBTRACT: u8 = 2;

pub const MULTIPLY: u8 = 3;

pub const DIVIDE: u8 = 4;

pub const MAX: u8 = 5;

pub const MIN: u8 = 6;

pub const NEGATE: u8 = 7;

pub const SUPPLIED_ONE: u8 = 8;

pub const SUPPLIED_TWO: u8 = 9;

pub const SQRT: u8 = 10;

// What the host supplies for operations 8 and 9. No Option: document 01 leaves unchecked what an operation does not use.
#[derive(Clone, Copy)]
pub struct Supplied {
    pub value: f64,
    pub left: f64,
    pub right: f64,
}

impl Supplied {
    // For the operations that use none of it.
    pub const NONE: Supplied = Supplied {
        value: 0.0,
        left: 0.0,
        right: 0.0,
    };
}

// A row of the table: the value, and the partials that the table gives.
#[derive(Clone, Copy)]
pub(crate) enum Row {
    Leaf(f64),
    One(f64, f64),
    Two(f64, f64, f64),
}

// The row of operation op for operands of values l and r, if the table has one.
pub(crate) fn apply(op: u8, l: f64, r: f64, supplied: Supplied) -> Option<Row>
    ensures { row_in result ≡ (known op, apply op l r (given supplied)) }
{
    let row = match op {
        LEAF => Row::Leaf(l),
        ADD => Row::Two(l + r, 1.0, 1.0),
        SUBTRACT => Row::Two(l - r, 1.0, 0.0 - 1.0),
        MULTIPLY => Row::Two(l * r, r, l),
        DIVIDE => Row::Two(l / r, 1.0 / r, 0.0 - l / (r * r)),
        MAX => Row::Two(
            if l >= r { l } else { r },
            if l >= r { 1.0 } else { 0.0 },
            if r > l { 1.0 } else { 0.0 },
        ),
        MIN => Row::Two(
            if l <= r { l } else { r },
            if l <= r { 1.0 } else { 0.0 },
            if r < l { 1.0 } else { 0.0 },
        ),
        NEGATE => Row::One(0.0 - l, 0.0 - 1.0),
        SUPPLIED_ONE => Row::One(supplied.value, supplied.left),
        SUPPLIED_TWO => Row::Two(supplied.value, supplied.left, supplied.right),
        SQRT => {
            let s = root::sqrt(l);
            Row::One(s, 0.5 / s)
        }
        11..=255 => return None,
    };
    Some(row)
}
