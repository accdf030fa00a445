// The kinds of cases of forward numbers, and how many words each takes.
ghost use Rattle.std.specs.Prelude.{◌≤◌};

#[derive(Clone, Copy, PartialEq, Eq)]
pub enum Kind {
    Constant,
    Var,
    Zero,
    One,
    Reads,
    Add,
    Sub,
    Mul,
    Div,
    Rem,
    MaxVal,
    MinVal,
    Neg,
    Abs,
    AddF64,
    SubF64,
    MulF64,
    DivF64,
    RemF64,
    SubFrom,
    DivInto,
    Compare,
    CompareF64,
    Sqrt,
}

// The names, in the order in which they are declared and reported.
pub const NAMES: [(&str, Kind); 24] = [
    ("constant", Kind::Constant),
    ("var", Kind::Var),
    ("zero", Kind::Zero),
    ("one", Kind::One),
    ("reads", Kind::Reads),
    ("add", Kind::Add),
    ("sub", Kind::Sub),
    ("mul", Kind::Mul),
    ("div", Kind::Div),
    ("rem", Kind::Rem),
    ("max_val", Kind::MaxVal),
    ("min_val", Kind::MinVal),
    ("neg", Kind::Neg),
    ("abs", Kind::Abs),
    ("add_f64", Kind::AddF64),
    ("sub_f64", Kind::SubF64),
    ("mul_f64", Kind::MulF64),
    ("div_f64", Kind::DivF64),
    ("rem_f64", Kind::RemF64),
    ("sub_from", Kind::SubFrom),
    ("div_into", Kind::DivInto),
    ("compare", Kind::Compare),
    ("compare_f64", Kind::CompareF64),
    ("sqrt", Kind::Sqrt),
];

// The order of a number: how many derivatives it has.
#[derive(Clone, Copy, PartialEq, Eq)]
pub enum Order {
    First,
    Second,
    Third,
    Fourth,
}

impl Order {
    // How many words a number is.
    pub(crate) fn words(self) -> usize
        ensures { result ≤ 16 }
    {
        match self {
            Order::First => 2,
            Order::Second => 4,
            Order::Third => 8,
            Order::Fourth => 16,
        }
    }

    // How many words are read out of a number: its value and each of its derivatives.
    fn read_words(self) -> usize
        ensures { result ≤ 5 }
    {
        match self {
            Order::First => 2,
            Order::Second => 3,
            Order::Third => 4,
            Order::Fourth => 5,
        }
    }
}

impl Kind {
    // How many words the operands are.
    pub(crate) fn operand_words(self, order: Order) -> usize
        ensures { result ≤ 32 }
    {
        let size = order.words();
        match self {
            Kind::Zero | Kind::One => 0,
            Kind::Constant | Kind::Var => 1,
            Kind::Reads | Kind::Neg | Kind::Abs | Kind::Sqrt => size,
            Kind::Add | Kind::Sub | Kind::Mul | Kind::Div | Kind::Rem => 2 * size,
            Kind::MaxVal | Kind::MinVal | Kind::Compare => 2 * size,
            _ => size + 1,
        }
    }

    // How many words the answer is.
    pub(crate) fn answer_words(self, order: Order) -> usize
        ensures { result ≤ 16 }
    {
        match self {
            Kind::Reads => order.read_words(),
            Kind::Compare | Kind::CompareF64 => 1,
            _ => order.words(),
        }
    }

    // Where the plain number stands among the words of a case that has one, where a number is `size` words.
    pub(crate) fn plain_at(self, size: usize) -> usize
        ensures { result ≤ size }
    {
        match self {
            Kind::Constant | Kind::Var => 0,
            _ => size,
        }
    }
}
