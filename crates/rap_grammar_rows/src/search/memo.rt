//! What was already asked for, and what was found.
ghost use Rattle.std.specs.Prelude.{◌≡◌, ◌≢◌, ◌<◌, length, slice_get, Any, IfOk, OnOk, Some};
ghost use Rattle.rap_grammar_rows.specs.declared.search.memo.Entry.{Entry};
ghost use Rattle.rap_grammar_rows.specs.declared.search.memo.Answer.TheVariants.{Unasked};

use rap_base::no_memory::NoMemory;
use std::alloc::Global;

/// What is asked for.
#[derive(Clone, Copy, PartialEq, Eq)]
pub enum Wanted {
    /// A category.
    Category(u16),
    /// The row from this place on.
    Row(u16),
    /// The row from this place on, which ends a node around the one before it.
    Turn(u16),
    /// Turns by the row from one place on, and last the row from another place on.
    Turns(u16, u16),
    /// Nodes around the one before, by the turns from this place on, the first one for this number.
    Folds(u16, u16),
}

/// A question: what is wanted from an element on, in a list that ends at another one. Where nodes are around the one
/// before it is the outermost of these in place of the end.
#[derive(Clone, Copy, PartialEq, Eq)]
pub struct Question {
    pub wanted: Wanted,
    pub at: usize,
    pub limit: usize,
}

/// What was found.
#[derive(Clone, Copy)]
pub enum Answer {
    /// The question was not asked yet.
    Unasked,
    /// There is none, as far as was found.
    Nothing,
    /// The fact with this number, up to this element.
    Fact(usize, usize),
}

#[derive(Clone, Copy)]
struct Entry {
    question: Question,
    answer: Answer,
    older: usize,
}

/// Questions with their answers: of each element the newest one, by its number and one.
#[derive(Drop)]
pub struct Memo {
    newest: Vec<usize>,
    entries: Vec<Entry>,
}

impl Memo {
    /// No questions, for so many elements, with room for one of each.
    pub fn new(alloc: Global, elements: usize) -> Result<Memo, NoMemory> {
        let mut newest = Vec::new(alloc);
        newest.resize(elements.saturating_add(1), 0)?;
        let entries = Vec::with_capacity(alloc, elements)?;
        Ok(Memo { newest, entries })
    }

    /// The number of the newest entry at an element and one, or 0.
    fn newest_at(&self, at: usize) -> usize {
        if at < self.newest.len() {
            self.newest[at]
        } else {
            0
        }
    }

    /// Returns what was found: an answer was written down for this very question.
    pub fn answer(&self, question: Question) -> Answer
        ensures { result ≢ Unasked → Any (λ entry. (entry.question ≡ question) × (entry.answer ≡ result)) self.now.entries.items }
    {
        let mut place = self.newest_at(question.at);
        'entries: for _ in 0..u64::MAX {
            if place == 0 || place > self.entries.len() {
                return Answer::Unasked;
            }
            let entry = self.entries[place - 1];
            if entry.question == question {
                return entry.answer;
            }
            place = entry.older;
        }
        Answer::Unasked
    }

    /// Writes down that a question was asked, and an answer, which is found by its element, if that is one of those that
    /// there are entries for. Returns the number of the entry.
    pub fn ask(&mut self, question: Question, answer: Answer) -> Result<usize, NoMemory>
        ensures asked { OnOk result (Any (λ entry. (entry.question ≡ question) × (entry.answer ≡ answer)) self.new.entries.items) }
        ensures number { IfOk result (λ number. number ≡ length self.old.entries.items) }
    {
        let older = self.newest_at(question.at);
        let number = self.entries.len();
        self.entries.push(Entry {
            question,
            answer,
            older,
        })?;
        if question.at < self.newest.len() {
            self.newest[question.at] = self.entries.len();
        }
        Ok(number)
    }

    /// Writes another answer to a question down, by the number of its entry.
    pub fn settle(&mut self, number: usize, answer: Answer)
        ensures { (old : Entry) → slice_get self.old.entries.items number ≡ Some old → Any (λ entry. (entry.question ≡ old.question) × (entry.answer ≡ answer)) self.new.entries.items }
    {
        if number < self.entries.len() {
            let Entry {
                question,
                older,
                ..
            } = self.entries[number];
            self.entries[number] = Entry {
                question,
                answer,
                older,
            };
        }
    }

    /// Returns the question of an entry, by its number.
    #[tactic(auto, using(std::proofs::lemmas::Option::get_or_from_slice_get))]
    pub fn question(&self, number: usize) -> Question
        ensures { (entry : Entry) → slice_get self.now.entries.items number ≡ Some entry → result ≡ entry.question }
    {
        if number < self.entries.len() {
            self.entries[number].question
        } else {
            Question {
                wanted: Wanted::Row(u16::MAX),
                at: usize::MAX,
                limit: usize::MAX,
            }
        }
    }
}
