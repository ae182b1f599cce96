// Reading a line field by field: the reader's state changes with each byte.
ghost use Rattle.std.specs.Prelude.{◌≡◌};
ghost use Rattle.line.specs.Lines.{a_capitals, a_mark, a_number, ended, held, mark_of, next, number_of};
ghost use Rattle.line.specs.States.{classed, stepped, walked};
ghost use Rattle.line.specs.Words.{rest, word};

// What a byte is to the reader.
#[derive(Clone, Copy)]
pub(crate) enum Class {
    Space,
    Digit(u8),
    Capital,
    Other,
}

impl From<u8> for Class {
    ghost from_gives = { λ b r. r ≡ classed b };

    fn from(b: u8) -> Class {
        match b {
            b' ' => Class::Space,
            b'0'..=b'9' => Class::Digit(b - b'0'),
            b'A'..=b'Z' => Class::Capital,
            _ => Class::Other,
        }
    }
}

// How far the reader is in a field.
#[derive(Clone, Copy)]
pub(crate) enum State {
    // A number is due.
    Number,
    // Read: the number 0, which no digit may follow.
    Zero,
    // Read: a number above 0.
    Digits(u16),
    // Capitals are due.
    Capitals,
    // Read: rising capitals up to this one.
    Risen(u8),
    // Any byte is due.
    Byte,
    // Read: this byte.
    One(u8),
    // Read: what no field can begin with.
    Bad,
}

impl State {
    fn number(self) -> Option<u16>
        ensures { result ≡ number_of self }
    {
        match self {
            State::Zero => Some(0),
            State::Digits(n) => Some(n),
            _ => None,
        }
    }

    fn mark(self) -> Option<u8>
        ensures { result ≡ mark_of self }
    {
        match self {
            State::One(b) => Some(b),
            _ => None,
        }
    }
}

// What is left of a line, and the state of the field that is read.
#[derive(Drop)]
pub(crate) struct Reader<'a> {
    pub(crate) left: &'a [u8],
    state: State,
}

impl<'a> Reader<'a> {
    pub(crate) fn new(left: &'a [u8]) -> Reader<'a>
        ensures { result.left.now ≡ left.now }
    {
        Reader {
            left,
            state: State::Bad,
        }
    }

    fn step(&mut self, b: u8)
        ensures state { self.new.state ≡ stepped self.old.state b }
        ensures left { self.new.left.now ≡ self.old.left.now }
    {
        self.state = match (self.state, Class::from(b)) {
            (_, Class::Space) => State::Bad,
            (State::Number, Class::Digit(0)) => State::Zero,
            (State::Number, Class::Digit(d)) => State::Digits(u16::from(d)),
            (State::Digits(n), Class::Digit(d)) if n < 6553 || n == 6553 && d < 6 => State::Digits(
                n * 10 + u16::from(d),
            ),
            (State::Capitals, Class::Capital) => State::Risen(b),
            (State::Risen(last), Class::Capital) if last < b => State::Risen(b),
            (State::Byte, _) => State::One(b),
            _ => State::Bad,
        };
    }

    // Reads on to the next space or the end.
    fn run(&mut self)
        ensures state { self.new.state ≡ walked self.old.state (word self.old.left.now) }
        ensures left { self.new.left.now ≡ rest self.old.left.now }
    {
        while let [b, left @ ..] = self.left {
            if *b == b' ' {
                break;
            }
            self.step(*b);
            self.left = left;
        }
    }

    // Reads a space and a field that begins in the state `start`.
    fn field(&mut self, start: State)
        ensures state { self.new.state ≡ ended start self.old.left.now }
        ensures left { self.new.left.now ≡ next self.old.left.now }
    {
        match self.left {
            [b' ', left @ ..] => {
                self.left = left;
                self.state = start;
                self.run();
            }
            _ => self.state = State::Bad,
        }
    }

    #[tactic(auto, unfolding(crate::specs::Lines::a_number))]
    pub(crate) fn number(&mut self) -> Option<u16>
        ensures value { result ≡ a_number self.old.left.now }
        ensures left { self.new.left.now ≡ next self.old.left.now }
    {
        self.field(State::Number);
        self.state.number()
    }

    pub(crate) fn capitals(&mut self) -> Option<&'a [u8]>
        ensures value { held result ≡ a_capitals self.old.left.now }
        ensures left { self.new.left.now ≡ next self.old.left.now }
    {
        let before = self.left;
        self.field(State::Capitals);
        match self.state {
            State::Risen(_) => Some(&before[1..before.len() - self.left.len()]),
            _ => None,
        }
    }

    #[tactic(auto, unfolding(crate::specs::Lines::a_mark))]
    pub(crate) fn mark(&mut self) -> Option<u8>
        ensures value { result ≡ a_mark self.old.left.now }
        ensures left { self.new.left.now ≡ next self.old.left.now }
    {
        self.field(State::Byte);
        self.state.mark()
    }
}
