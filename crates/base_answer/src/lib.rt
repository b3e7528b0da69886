// Every answer that a call of the panel software can give (document 01, "Refusal numbers").
#![tactic(auto)]

ghost use Rattle.std.specs.Prelude.{◌≡◌};
ghost use Rattle.base_answer.specs.Numbers.{number_of, is_taken};

#[derive(Clone, Copy)]
pub enum Answer {
    Taken,
    CutShort,
    NotCarried,
    OutOfRange,
    NoInstrument,
    TooManyValues,
    NoTime,
    Late,
    NoRoom,
    Ended,
    BlockLength,
    LeftOver,
    BadToken,
    BadGrammar,
    BadNames,
    BadRates,
    TooLarge,
    UnknownVersion,
    BadText,
    NoText,
    NothingToUndo,
}

// The number of an answer in document 01's table.
pub fn number(a: Answer) -> u8
    ensures { result ≡ number_of a }
{
    match a {
        Answer::Taken => 0,
        Answer::CutShort => 1,
        Answer::NotCarried => 2,
        Answer::OutOfRange => 3,
        Answer::NoInstrument => 4,
        Answer::TooManyValues => 5,
        Answer::NoTime => 6,
        Answer::Late => 7,
        Answer::NoRoom => 8,
        Answer::Ended => 9,
        Answer::BlockLength => 10,
        Answer::LeftOver => 11,
        Answer::BadToken => 12,
        Answer::BadGrammar => 13,
        Answer::BadNames => 14,
        Answer::BadRates => 15,
        Answer::TooLarge => 16,
        Answer::UnknownVersion => 17,
        Answer::BadText => 18,
        Answer::NoText => 19,
        Answer::NothingToUndo => 21,
    }
}

// Whether a call was taken.
pub fn is_taken(a: Answer) -> bool
    ensures { result ≡ is_taken a }
{
    matches!(a, Answer::Taken)
}

// What a call leaves, and its answer.
#[derive(Clone, Copy)]
pub struct Answered<S> {
    pub left: S,
    pub answer: Answer,
}

// What a call at an entrance leaves; `line` is the number of the line that a refusal is about.
#[derive(Clone, Copy)]
pub struct AnsweredLine<S> {
    pub left: S,
    pub answer: Answer,
    pub line: usize,
}

// What a burst leaves; `units` is how many of its units were answered.
#[derive(Clone, Copy)]
pub struct AnsweredUnits<S> {
    pub left: S,
    pub answer: Answer,
    pub units: usize,
}

impl<S> Answered<S> {
    // The same answer of a call that leaves something else.
    pub fn leaving<T>(&self, left: T) -> Answered<T>
        ensures { result ≡ record { left = left; answer = self.now.answer } }
    {
        let answer = self.answer;
        Answered { left, answer }
    }
}

impl<S> AnsweredLine<S> {
    // The same answer of a call that leaves something else.
    pub fn leaving<T>(&self, left: T) -> AnsweredLine<T>
        ensures { result ≡ record { left = left; answer = self.now.answer; line = self.now.line } }
    {
        AnsweredLine {
            left,
            answer: self.answer,
            line: self.line,
        }
    }
}

impl<S> AnsweredUnits<S> {
    // The same answer of a call that leaves something else.
    pub fn leaving<T>(&self, left: T) -> AnsweredUnits<T>
        ensures { result ≡ record { left = left; answer = self.now.answer; units = self.now.units } }
    {
        AnsweredUnits {
            left,
            answer: self.answer,
            units: self.units,
        }
    }
}
