//! Turns one after another, and nodes around one.

use crate::check::turn_numbers;
use crate::fact::Claim;
use crate::search::memo::{Answer, Question, Wanted};
use crate::search::site::{Site, Way, has_kind, site_at};
use crate::search::{NONE, Outcome, Search, Task, Walk};
use crate::tokens::contains;
use rap_base::no_memory::NoMemory;

/// Turns that are found one after another.
#[derive(Clone, Copy)]
pub(crate) struct Turns {
    /// The number of the question's entry.
    entry: usize,
    turn: Way,
    last: Way,
    at: usize,
    node: usize,
    /// How many turns of others are found.
    below: usize,
    /// Whether only what stands last may come.
    is_last: bool,
}

/// Nodes around another one, from the innermost on.
#[derive(Clone, Copy)]
pub(crate) struct Folds {
    /// The number of the question's entry.
    entry: usize,
    number: u16,
    /// The first turn, the one to try next, and how many stand before that.
    first: u16,
    place: u16,
    skips: usize,
    at: usize,
    /// The outermost of the nodes, how many are left, and how many around others are found.
    outermost: usize,
    left: usize,
    below: usize,
}

/// For a number the turn that stands so many behind the first one, by its fact.
#[derive(Clone, Copy)]
pub(crate) struct Fold {
    number: u16,
    skips: usize,
    fact: usize,
}

/// Whether a turn is there for a number.
fn is_for(numbers: u16, number: u16) -> bool {
    match turn_numbers(usize::from(numbers)) {
        Some((set, _)) => contains(set, number),
        None => false,
    }
}

impl Search {
    /// Goes past turns and what stands last, or asks for them.
    pub(crate) fn repeat(
        &mut self,
        walk: &mut Walk,
        turn: Way,
        last: Way,
    ) -> Result<Outcome, NoMemory> {
        let (at, node) = (walk.state.at, walk.state.node);
        let question = self.question(Wanted::Turns(turn.site, last.site), at, node);
        let answer = self.memo.answer(question);
        let Answer::Unasked = answer else {
            return self.resume(walk, answer);
        };
        let mut turns = Turns {
            entry: self.memo.ask(question, Answer::Nothing)?,
            turn,
            last,
            at,
            node,
            below: self.turned.len(),
            is_last: false,
        };
        match self.next_turns(&mut turns, answer)? {
            Some(answer) => self.resume(walk, answer),
            None => {
                self.tasks.push(Task::Walk(*walk))?;
                self.ask_turn(walk, turns)?;
                Ok(Outcome::On)
            }
        }
    }

    /// The row that is looked for.
    fn wanted_of(&self, turns: &Turns) -> Way {
        if turns.is_last {
            turns.last
        } else {
            turns.turn
        }
    }

    /// Asks for one turn, or for what stands last.
    fn ask_turn(&mut self, walk: &mut Walk, turns: Turns) -> Result<(), NoMemory> {
        self.tasks.push(Task::Turns(turns))?;
        *walk = self.begin_row(self.wanted_of(&turns), turns.at, turns.node)?;
        Ok(())
    }

    /// Goes on with turns once one of them, or what stands last, is answered. Returns their answer, if there is one now.
    pub(crate) fn turns_step(
        &mut self,
        walk: &mut Walk,
        turns: Turns,
        answer: Answer,
    ) -> Result<Option<Answer>, NoMemory> {
        let mut turns = turns;
        let found = self.next_turns(&mut turns, answer)?;
        if found.is_none() {
            self.ask_turn(walk, turns)?;
        }
        Ok(found)
    }

    /// Looks for turns one after another, and then for what stands last. Returns the answer, or nothing where one of
    /// these is to be asked for.
    fn next_turns(
        &mut self,
        turns: &mut Turns,
        answer: Answer,
    ) -> Result<Option<Answer>, NoMemory> {
        let mut answer = answer;
        'turns: for _ in 0..u64::MAX {
            match answer {
                Answer::Unasked => {}
                Answer::Fact(last, at) if turns.is_last => {
                    return Ok(Some(self.turns_done(turns, last, at)?));
                }
                Answer::Fact(turn, at) if at > turns.at => {
                    self.turned.push((turn, turns.at))?;
                    turns.at = at;
                }
                _ => {
                    if !self.turns_back(turns) {
                        break 'turns;
                    }
                }
            }
            answer = self.row(self.wanted_of(turns), turns.at, turns.node)?;
            if let Answer::Unasked = answer {
                return Ok(None);
            }
        }
        Ok(Some(Answer::Nothing))
    }

    /// Tries what stands last, here or before the newest turn. Whether there is such a place.
    fn turns_back(&mut self, turns: &mut Turns) -> bool {
        if !turns.is_last {
            turns.is_last = true;
            return true;
        }
        if self.turned.len() <= turns.below {
            return false;
        }
        let Some((_, at)) = self.turned.pop() else {
            return false;
        };
        turns.at = at;
        true
    }

    /// Answers by turns and what stands last.
    fn turns_done(&mut self, turns: &Turns, last: usize, end: usize) -> Result<Answer, NoMemory> {
        let mut fact = self.claim(Claim::LastTurn(usize::from(turns.turn.site), last))?;
        'turns: for _ in 0..u64::MAX {
            if self.turned.len() <= turns.below {
                break 'turns;
            }
            let Some((turn, _)) = self.turned.pop() else {
                break 'turns;
            };
            fact = self.claim(Claim::OneTurn(turn, fact))?;
        }
        let answer = Answer::Fact(fact, end);
        self.memo.settle(turns.entry, answer);
        Ok(answer)
    }

    /// How many nodes stand around an element that ends here, from the outermost on; nothing where none ends here.
    fn nodes_around(&self, outermost: usize, at: usize) -> Option<usize> {
        if outermost == NONE {
            return Some(0);
        }
        'nodes: for node in outermost..self.elements.len() {
            let behind = self.elements.at(node).behind;
            if behind == at {
                return Some(node - outermost);
            }
            if behind < at {
                return None;
            }
        }
        None
    }

    /// Goes past the nodes around the one before, or asks for them.
    pub(crate) fn folds(
        &mut self,
        walk: &mut Walk,
        number: u16,
        turns: u16,
    ) -> Result<Outcome, NoMemory> {
        let (at, outermost) = (walk.state.at, walk.state.outermost);
        let Some(left) = self.nodes_around(outermost, at) else {
            return Ok(Outcome::Back);
        };
        if left > 0 {
            walk.state.node = self.elements.at(outermost).parent;
        }
        walk.state.outermost = NONE;
        if left == 0 {
            let answer = self.no_folds(at, turns, number)?;
            return self.resume(walk, answer);
        }
        let question = Question {
            wanted: Wanted::Folds(turns, number),
            at,
            limit: outermost,
        };
        let answer = self.memo.answer(question);
        let Answer::Unasked = answer else {
            return self.resume(walk, answer);
        };
        let folds = Folds {
            entry: self.memo.ask(question, Answer::Nothing)?,
            number,
            first: turns,
            place: turns,
            skips: 0,
            at,
            outermost,
            left,
            below: self.folded.len(),
        };
        self.fold_first(walk, folds)
    }

    /// Begins to look for turns that put the nodes around one.
    fn fold_first(&mut self, walk: &mut Walk, folds: Folds) -> Result<Outcome, NoMemory> {
        let mut folds = folds;
        match self.next_folds(&mut folds, Answer::Unasked)? {
            Some(answer) => self.resume(walk, answer),
            None => {
                self.tasks.push(Task::Walk(*walk))?;
                self.ask_fold(walk, folds)?;
                Ok(Outcome::On)
            }
        }
    }

    /// Answers that no node is around the one before. This is not kept: it takes as long to look it up.
    fn no_folds(&mut self, at: usize, turns: u16, number: u16) -> Result<Answer, NoMemory> {
        let token = self.token(at);
        let fact = self.claim(Claim::NoFold(usize::from(turns), number, token))?;
        Ok(Answer::Fact(fact, at))
    }

    /// The node that comes next.
    fn node_of(&self, folds: &Folds) -> usize {
        folds.outermost.saturating_add(folds.left).saturating_sub(1)
    }

    /// What is wanted of the turn that comes next.
    fn question_of(&self, folds: &Folds) -> Option<(u16, Question)> {
        let Site::Turn(_, _, row, _) = site_at(folds.place) else {
            return None;
        };
        let question = Question {
            wanted: Wanted::Turn(row.site),
            at: folds.at,
            limit: self.node_of(folds),
        };
        Some((row.site, question))
    }

    /// Asks for the turn that comes next.
    fn ask_fold(&mut self, walk: &mut Walk, folds: Folds) -> Result<(), NoMemory> {
        if let Some((row, question)) = self.question_of(&folds) {
            self.tasks.push(Task::Folds(folds))?;
            *walk = self.begin(question, question.limit, row, usize::MAX)?;
        }
        Ok(())
    }

    /// Goes on with nodes around one once a turn is answered. Returns their answer, if there is one now.
    pub(crate) fn folds_step(
        &mut self,
        walk: &mut Walk,
        folds: Folds,
        answer: Answer,
    ) -> Result<Option<Answer>, NoMemory> {
        let mut folds = folds;
        let found = self.next_folds(&mut folds, answer)?;
        if found.is_none() {
            self.ask_fold(walk, folds)?;
        }
        Ok(found)
    }

    /// Looks for turns that put the nodes around one. Returns the answer, or nothing where a turn is to be asked for.
    fn next_folds(
        &mut self,
        folds: &mut Folds,
        answer: Answer,
    ) -> Result<Option<Answer>, NoMemory> {
        let mut answer = answer;
        'folds: for _ in 0..u64::MAX {
            match answer {
                Answer::Unasked => {}
                Answer::Nothing => self.folds_back(folds),
                Answer::Fact(fact, at) => self.folds_on(folds, fact, at)?,
            }
            if folds.left == 0 {
                return Ok(Some(self.folds_done(folds)?));
            }
            if !self.has_turn(folds) {
                break 'folds;
            }
            let Some((_, question)) = self.question_of(folds) else {
                break 'folds;
            };
            answer = self.memo.answer(question);
            if let Answer::Unasked = answer {
                return Ok(None);
            }
        }
        self.folded.truncate(folds.below);
        Ok(Some(Answer::Nothing))
    }

    /// Goes on to the first turn from the next one on that may put this node around those before. Whether there is one.
    fn has_turn(&self, folds: &mut Folds) -> bool {
        let node = self.node_of(folds);
        let kind = u16::from(self.elements.at(node).kind);
        let coming = self.kind_in(folds.at, node);
        'turns: for _ in 0..u64::MAX {
            let Site::Turn(numbers, kinds, row, _) = site_at(folds.place) else {
                return false;
            };
            if has_kind(kinds, kind)
                && has_kind(row.kinds, coming)
                && is_for(numbers, folds.number)
            {
                return true;
            }
            self.folds_back(folds);
        }
        false
    }

    /// Goes on to the next turn at the same place.
    fn folds_back(&self, folds: &mut Folds) {
        if let Site::Turn(_, _, _, next) = site_at(folds.place) {
            folds.place = next;
        }
        folds.skips = folds.skips.saturating_add(1);
    }

    /// One node more is found, and the turns are tried from the first on.
    fn folds_on(&mut self, folds: &mut Folds, fact: usize, at: usize) -> Result<(), NoMemory> {
        let Site::Turn(numbers, _, _, _) = site_at(folds.place) else {
            return Ok(());
        };
        self.folded.push(Fold {
            number: folds.number,
            skips: folds.skips,
            fact,
        })?;
        if let Some((_, then)) = turn_numbers(usize::from(numbers)) {
            folds.number = then;
        }
        folds.left = folds.left.saturating_sub(1);
        folds.at = at;
        folds.place = folds.first;
        folds.skips = 0;
        Ok(())
    }

    /// Answers by the turns that were found.
    fn folds_done(&mut self, folds: &Folds) -> Result<Answer, NoMemory> {
        let token = self.token(folds.at);
        let last = Claim::NoFold(usize::from(folds.first), folds.number, token);
        let mut fact = self.claim(last)?;
        'folds: for _ in 0..u64::MAX {
            if self.folded.len() <= folds.below {
                break 'folds;
            }
            let Some(fold) = self.folded.pop() else {
                break 'folds;
            };
            fact = self.claim(Claim::OneFold(fold.number, fold.skips, fold.fact, fact))?;
        }
        let answer = Answer::Fact(fact, folds.at);
        self.memo.settle(folds.entry, answer);
        Ok(answer)
    }
}
