//! A search for a derivation along a tree: the claims that `derives_file` checks. Nothing of what is found here is
//! believed: of the search it is proved that it is safe and that it ends, and tested that it finds what there is.

use crate::fact::Claim;
use crate::guard::is_refused;
use crate::search::element::{Elements, elements_of};
use crate::search::list::{Item, Lists};
use crate::search::lists::AT_END;
use crate::search::memo::{Answer, Memo, Question, Wanted};
use crate::search::site::{Site, Way, first_row, has_kind, row_at, site_at};
use crate::search::turning::{Fold, Folds, Turns};
use crate::tokens::{has_word, is_word, operator_end};
use rap_base::no_memory::NoMemory;
use rap_events::input::Input;
use rap_events::output::Output;
use std::alloc::Global;

pub mod element;
mod list;
mod lists;
mod memo;
mod numbers;
pub mod outside;
mod site;
mod turning;

/// How a text is derived: claims in their order, and the choices of their walks.
#[derive(Drop)]
pub struct Derivation {
    pub claims: Vec<Claim>,
    pub moves: Vec<usize>,
}

/// No element.
pub(crate) const NONE: usize = usize::MAX;

/// Where a walk is.
#[derive(Clone, Copy)]
pub(crate) struct State {
    pub(crate) site: u16,
    /// The element that comes next.
    pub(crate) at: usize,
    /// The node in whose list the walk is.
    pub(crate) node: usize,
    /// The outermost of the nodes around what comes next, each of which begins with the next one; where there are none it
    /// is what comes next, and where none were looked for `NONE`.
    pub(crate) outermost: usize,
    /// The same for the nodes that are open, and the tests so far: as lists.
    pub(crate) outer: usize,
    pub(crate) guards: usize,
}

/// A walk along a row that answers a question.
#[derive(Clone, Copy)]
pub(crate) struct Walk {
    /// The number of the question's entry.
    pub(crate) entry: usize,
    /// Where the row stands among those of its category.
    pub(crate) row: usize,
    /// The node in whose list it began.
    pub(crate) node: usize,
    /// How many choices of others stand before its own, and how many states of others below those to go back to.
    pub(crate) choices: usize,
    pub(crate) below: usize,
    pub(crate) state: State,
}

/// What is to be gone on with once there is an answer.
#[derive(Clone, Copy)]
pub(crate) enum Task {
    Walk(Walk),
    Turns(Turns),
    Folds(Folds),
}

/// What a walk comes to.
#[derive(Clone, Copy)]
pub(crate) enum Outcome {
    /// It goes on.
    On,
    /// It does not, this way.
    Back,
    /// The row is at its end.
    Done,
}

/// A search, with all that was found.
#[derive(Drop)]
pub(crate) struct Search {
    pub(crate) elements: Elements,
    pub(crate) memo: Memo,
    pub(crate) lists: Lists,
    /// What walks go back to, each with the number of choices before.
    pub(crate) states: Vec<(State, usize)>,
    /// The choices of the walks that have not ended.
    pub(crate) choices: Vec<usize>,
    /// Turns that are found, each with the element before it; and nodes around one that are found.
    pub(crate) turned: Vec<(usize, usize)>,
    pub(crate) folded: Vec<Fold>,
    pub(crate) tasks: Vec<Task>,
    pub(crate) claims: Vec<Claim>,
    pub(crate) moves: Vec<usize>,
    pub(crate) alloc: Global,
}

/// The state before a row.
fn before(site: u16, at: usize, node: usize) -> State {
    State {
        site,
        at,
        node,
        outermost: NONE,
        outer: 0,
        guards: 0,
    }
}

impl Search {
    /// The token that stands first in an element, or behind the last one.
    pub(crate) fn token(&self, at: usize) -> usize {
        self.elements.at(at).token
    }

    /// The kind of an element in a node, or that the node's list ends before it.
    #[inline(always)]
    pub(crate) fn kind_in(&self, at: usize, node: usize) -> u16 {
        if at < self.elements.end_of(node) {
            u16::from(self.elements.at(at).kind)
        } else {
            AT_END
        }
    }

    /// What is wanted from an element on in a node.
    pub(crate) fn question(&self, wanted: Wanted, at: usize, node: usize) -> Question {
        Question {
            wanted,
            at,
            limit: self.elements.end_of(node),
        }
    }

    /// Asks a question: begins a walk in a node from a site on. Of a category it is told where its row stands.
    pub(crate) fn begin(
        &mut self,
        question: Question,
        node: usize,
        site: u16,
        row: usize,
    ) -> Result<Walk, NoMemory> {
        let entry = self.memo.ask(question, Answer::Nothing)?;
        Ok(Walk {
            entry,
            row,
            node,
            choices: self.choices.len(),
            below: self.states.len(),
            state: before(site, question.at, node),
        })
    }

    /// Asks for a row.
    pub(crate) fn begin_row(&mut self, way: Way, at: usize, node: usize) -> Result<Walk, NoMemory> {
        let question = self.question(Wanted::Row(way.site), at, node);
        self.begin(question, node, way.site, usize::MAX)
    }

    /// Makes a claim. Returns its number.
    pub(crate) fn claim(&mut self, claim: Claim) -> Result<usize, NoMemory> {
        let number = self.claims.len();
        self.claims.push(claim)?;
        Ok(number)
    }

    /// Answers whether a row derives what comes in a node, if that is known without a walk. An empty row is not kept:
    /// it takes as long to look it up.
    pub(crate) fn row(&mut self, way: Way, at: usize, node: usize) -> Result<Answer, NoMemory> {
        if !has_kind(way.kinds, self.kind_in(at, node)) {
            return Ok(Answer::Nothing);
        }
        if let Site::End = site_at(way.site) {
            let token = self.token(at);
            let fact = self.claim(Claim::Row(usize::from(way.site), token, token))?;
            return Ok(Answer::Fact(fact, at));
        }
        Ok(
            self.memo
                .answer(self.question(Wanted::Row(way.site), at, node)),
        )
    }

    /// Goes back to the last way that a walk left out, or to the next row of its category. Whether there was one.
    fn back(&mut self, walk: &mut Walk) -> Result<bool, NoMemory> {
        if self.states.len() > walk.below {
            if let Some((state, choices)) = self.states.pop() {
                walk.state = state;
                self.choices.truncate(choices);
                self.take_up(state)?;
                return Ok(true);
            }
        }
        self.forget(walk);
        if !row_at(walk.row).has_next {
            return Ok(false);
        }
        walk.row = walk.row.saturating_add(1);
        let at = self.memo.question(walk.entry).at;
        walk.state = before(row_at(walk.row).site, at, walk.node);
        Ok(true)
    }

    /// Goes on at what was left for later: with one node less around what comes, or on the second of two ways.
    fn take_up(&mut self, state: State) -> Result<(), NoMemory> {
        if state.outermost == NONE {
            self.choices.push(1)?;
            return Ok(());
        }
        self.leave_less(state)
    }

    /// Of a state with nodes around what comes, leaves the one with one less of them for later.
    fn leave_less(&mut self, state: State) -> Result<(), NoMemory> {
        if state.outermost >= state.at {
            return Ok(());
        }
        let mut less = state;
        less.at = state.at.saturating_sub(1);
        less.node = self.elements.at(less.at).parent;
        self.leave(less)
    }

    /// Leaves a way for later.
    fn leave(&mut self, state: State) -> Result<(), NoMemory> {
        let choices = self.choices.len();
        self.states.push((state, choices))?;
        Ok(())
    }

    /// Lets go of the ways that a walk left out, and of its choices.
    fn forget(&mut self, walk: &Walk) {
        if self.states.len() > walk.below {
            self.states.truncate(walk.below);
        }
        if self.choices.len() > walk.choices {
            self.choices.truncate(walk.choices);
        }
    }

    /// Goes on past what was asked for.
    pub(crate) fn resume(&mut self, walk: &mut Walk, answer: Answer) -> Result<Outcome, NoMemory> {
        let Answer::Fact(fact, at) = answer else {
            return Ok(Outcome::Back);
        };
        self.choices.push(fact)?;
        walk.state.at = at;
        Ok(Outcome::On)
    }

    /// Goes past a category, or asks for it.
    fn category(&mut self, walk: &mut Walk, number: u16) -> Result<Outcome, NoMemory> {
        let State { at, node, .. } = walk.state;
        let Some(row) = first_row(number, self.kind_in(at, node)) else {
            return Ok(Outcome::Back);
        };
        let question = self.question(Wanted::Category(number), at, node);
        match self.memo.answer(question) {
            Answer::Unasked => {
                self.tasks.push(Task::Walk(*walk))?;
                *walk = self.begin(question, node, row_at(row).site, row)?;
                Ok(Outcome::On)
            }
            answer => self.resume(walk, answer),
        }
    }

    /// Goes past a part that a script reads alone, or asks for it.
    fn group(&mut self, walk: &mut Walk, way: Way) -> Result<Outcome, NoMemory> {
        let State { at, node, .. } = walk.state;
        match self.row(way, at, node)? {
            Answer::Unasked => {
                self.tasks.push(Task::Walk(*walk))?;
                *walk = self.begin_row(way, at, node)?;
                Ok(Outcome::On)
            }
            answer => self.resume(walk, answer),
        }
    }

    /// Whether nodes may stand around an element: it is one of these kinds, and begins with another node.
    fn is_around(&self, kinds: u16, at: usize) -> bool {
        let outer = self.elements.at(at);
        let inner = self.elements.at(at.saturating_add(1));
        outer.is_node
            && inner.is_node
            && inner.behind < outer.behind
            && has_kind(kinds, u16::from(outer.kind))
    }

    /// Goes down to what nodes stand around, as far as it goes; the ways that go less far are left for later.
    fn inside(&mut self, state: &mut State, kinds: u16) -> Result<(), NoMemory> {
        let end = self.elements.end_of(state.node);
        state.outermost = state.at;
        'nodes: for _ in 0..u64::MAX {
            if state.at >= end || !self.is_around(kinds, state.at) {
                break 'nodes;
            }
            state.node = state.at;
            state.at = state.at.saturating_add(1);
        }
        self.leave_less(*state)
    }

    /// Begins a node of this kind.
    fn start(&mut self, state: &mut State, kind: u16) -> Outcome {
        if self.kind_in(state.at, state.node) != kind || !self.elements.at(state.at).is_node {
            return Outcome::Back;
        }
        state.node = state.at;
        state.at = state.at.saturating_add(1);
        Outcome::On
    }

    /// Begins a node, and keeps what stands around it.
    fn start_around(&mut self, state: &mut State, kind: u16) -> Result<Outcome, NoMemory> {
        let around = Item::Around(state.outermost);
        state.outer = self.lists.put(around, state.outer)?;
        state.outermost = NONE;
        Ok(self.start(state, kind))
    }

    /// Ends a node.
    fn close(&mut self, state: &mut State) -> Outcome {
        let element = self.elements.at(state.node);
        if element.behind != state.at {
            return Outcome::Back;
        }
        state.node = element.parent;
        Outcome::On
    }

    /// Ends a node, and takes up what stands around it.
    fn close_around(&mut self, state: &mut State) -> Outcome {
        let (Item::Around(outermost), outer) = self.lists.first(state.outer) else {
            return Outcome::Back;
        };
        state.outermost = outermost;
        state.outer = outer;
        self.close(state)
    }

    /// Goes past a leaf, if it is as the row asks.
    fn leaf(&mut self, state: &mut State, is_one: bool) -> Outcome {
        if !is_one
            || state.at >= self.elements.end_of(state.node)
            || self.elements.at(state.at).is_node
        {
            return Outcome::Back;
        }
        state.at = state.at.saturating_add(1);
        Outcome::On
    }

    /// Takes the first of two ways, if it may be that one, and leaves the second for later, if it may be that one.
    fn choose(&mut self, state: &mut State, first: Way, second: Way) -> Result<Outcome, NoMemory> {
        let kind = self.kind_in(state.at, state.node);
        let is_second = has_kind(second.kinds, kind);
        if has_kind(first.kinds, kind) {
            if is_second {
                let mut other = *state;
                other.site = second.site;
                self.leave(other)?;
            }
            self.choices.push(0)?;
            state.site = first.site;
            return Ok(Outcome::On);
        }
        if !is_second {
            return Ok(Outcome::Back);
        }
        self.choices.push(1)?;
        state.site = second.site;
        Ok(Outcome::On)
    }

    /// Goes past a test, which is decided at the end of the row.
    fn guard(&mut self, state: &mut State, guard: u16) -> Result<Outcome, NoMemory> {
        let test = Item::Guard(guard, self.token(state.at));
        state.guards = self.lists.put(test, state.guards)?;
        Ok(Outcome::On)
    }

    /// Whether the tests that a walk came past do not hold.
    fn is_refused(&self, input: &Input, state: &State) -> bool {
        let end = self.token(state.at);
        let mut guards = state.guards;
        'guards: for _ in 0..u64::MAX {
            let (Item::Guard(guard, token), rest) = self.lists.first(guards) else {
                return true;
            };
            if !is_refused(input, token, end, usize::from(guard)) {
                return false;
            }
            guards = rest;
        }
        false
    }

    /// Ends a row.
    fn end(&self, input: &Input, state: &State) -> Outcome {
        if state.guards == 0 || self.is_refused(input, state) {
            Outcome::Done
        } else {
            Outcome::Back
        }
    }

    /// Goes past a token of one of these kinds, which is read as one of these words.
    fn token_step(&mut self, input: &Input, state: &mut State, kinds: u16, words: u16) -> Outcome {
        let element = self.elements.at(state.at);
        let is_one = has_kind(kinds, u16::from(element.kind))
            && input.kind(element.token) == element.kind
            && has_word(
                usize::from(words),
                u16::from(input.contextual_kind(element.token)),
            );
        self.leaf(state, is_one)
    }

    /// Goes past an identifier that is taken as this word.
    fn word(&mut self, input: &Input, state: &mut State, word: u16) -> Outcome {
        let element = self.elements.at(state.at);
        let is_one = u16::from(element.kind) == word && is_word(input, element.token, word);
        self.leaf(state, is_one)
    }

    /// Goes past the tokens of an operator.
    fn operator(&mut self, input: &Input, state: &mut State, operator: u16) -> Outcome {
        let element = self.elements.at(state.at);
        let is_one = u16::from(element.kind) == operator
            && operator_end(self.alloc, input, element.token, operator).is_some();
        self.leaf(state, is_one)
    }

    /// Goes one site further along a row.
    fn step(&mut self, input: &Input, walk: &mut Walk) -> Result<Outcome, NoMemory> {
        let site = site_at(walk.state.site);
        match site {
            Site::End => Ok(self.end(input, &walk.state)),
            Site::Choice(first, second) => self.choose(&mut walk.state, first, second),
            Site::Category(number, next) => {
                walk.state.site = next;
                self.category(walk, number)
            }
            Site::Repeat(turn, last, next) => {
                walk.state.site = next;
                self.repeat(walk, turn, last)
            }
            Site::Group(way, next) => {
                walk.state.site = next;
                self.group(walk, way)
            }
            Site::Folds(number, turns, next) => {
                walk.state.site = next;
                self.folds(walk, number, turns)
            }
            Site::Turn(_, _, _, _) => Ok(Outcome::Back),
            _ => self.step_in(input, &mut walk.state, site),
        }
    }

    /// Goes one site further, without a question.
    fn step_in(
        &mut self,
        input: &Input,
        state: &mut State,
        site: Site,
    ) -> Result<Outcome, NoMemory> {
        match site {
            Site::Start(kind, next) => {
                state.site = next;
                Ok(self.start(state, kind))
            }
            Site::StartAround(kind, next) => {
                state.site = next;
                self.start_around(state, kind)
            }
            Site::Inside(kinds, next) => {
                state.site = next;
                self.inside(state, kinds)?;
                Ok(Outcome::On)
            }
            Site::Close(next) => {
                state.site = next;
                Ok(self.close(state))
            }
            Site::CloseAround(next) => {
                state.site = next;
                Ok(self.close_around(state))
            }
            Site::Token(kinds, words, next) => {
                state.site = next;
                Ok(self.token_step(input, state, kinds, words))
            }
            Site::Word(word, next) => {
                state.site = next;
                Ok(self.word(input, state, word))
            }
            Site::Operator(operator, next) => {
                state.site = next;
                Ok(self.operator(input, state, operator))
            }
            Site::Guard(guard, next) => {
                state.site = next;
                self.guard(state, guard)
            }
            _ => Ok(Outcome::Back),
        }
    }

    /// Answers a question by a walk that is at its end.
    fn done(&mut self, walk: &Walk) -> Result<Answer, NoMemory> {
        let question = self.memo.question(walk.entry);
        let start = self.token(question.at);
        let end = self.token(walk.state.at);
        let claim = match question.wanted {
            Wanted::Category(number) => {
                Claim::Category(number, usize::from(row_at(walk.row).number), start, end)
            }
            Wanted::Row(place) => Claim::Row(usize::from(place), start, end),
            Wanted::Turn(place) => Claim::Turn(usize::from(place), start, end),
            Wanted::Turns(_, _) | Wanted::Folds(_, _) => return Ok(Answer::Nothing),
        };
        'moves: for i in walk.choices..self.choices.len() {
            self.moves.push(self.choices[i])?;
        }
        self.forget(walk);
        let fact = self.claim(claim)?;
        let answer = Answer::Fact(fact, walk.state.at);
        self.memo.settle(walk.entry, answer);
        Ok(answer)
    }

    /// Goes on with the newest task that waits, and those below it, until one goes on with a walk. Returns the answer if
    /// none does.
    fn pass_on(&mut self, walk: &mut Walk, answer: Answer) -> Result<Option<Answer>, NoMemory> {
        let mut answer = answer;
        'tasks: for _ in 0..u64::MAX {
            let going = match self.tasks.pop() {
                None => return Ok(Some(answer)),
                Some(Task::Walk(waiting)) => {
                    *walk = waiting;
                    if let Outcome::On = self.resume(walk, answer)? {
                        return Ok(None);
                    }
                    if self.back(walk)? {
                        return Ok(None);
                    }
                    Some(Answer::Nothing)
                }
                Some(Task::Turns(turns)) => self.turns_step(walk, turns, answer)?,
                Some(Task::Folds(folds)) => self.folds_step(walk, folds, answer)?,
            };
            let Some(next) = going else {
                return Ok(None);
            };
            answer = next;
        }
        Ok(Some(Answer::Nothing))
    }

    /// Goes on along a walk by one site, and if it is at its end with what waits for it. Returns the last answer.
    fn go_on(&mut self, input: &Input, walk: &mut Walk) -> Result<Option<Answer>, NoMemory> {
        let answer = match self.step(input, walk)? {
            Outcome::On => return Ok(None),
            Outcome::Back => {
                if self.back(walk)? {
                    return Ok(None);
                }
                Answer::Nothing
            }
            Outcome::Done => self.done(walk)?,
        };
        self.pass_on(walk, answer)
    }

    /// Follows a walk up to its end, with all that it leads to. Returns the answer.
    fn follow(&mut self, input: &Input, walk: Walk) -> Result<Answer, NoMemory> {
        let mark = self.lists.mark();
        let mut walk = walk;
        'steps: for _ in 0..u64::MAX {
            if let Some(answer) = self.go_on(input, &mut walk)? {
                self.lists.release(mark);
                return Ok(answer);
            }
        }
        Ok(Answer::Nothing)
    }

    /// Answers whether a category derives what stands from an element on, and with it all that this leads to.
    pub(crate) fn answer_category(
        &mut self,
        input: &Input,
        category: u16,
        at: usize,
    ) -> Result<Answer, NoMemory> {
        let node = self.elements.at(at).parent;
        let Some(row) = first_row(category, self.kind_in(at, node)) else {
            return Ok(Answer::Nothing);
        };
        let question = self.question(Wanted::Category(category), at, node);
        match self.memo.answer(question) {
            Answer::Unasked => {
                let walk = self.begin(question, node, row_at(row).site, row)?;
                self.follow(input, walk)
            }
            answer => Ok(answer),
        }
    }
}

/// Begins a search along a tree.
pub(crate) fn new_search(alloc: Global, elements: Elements) -> Result<Search, NoMemory> {
    let memo = Memo::new(alloc, elements.len())?;
    let lists = Lists::new(alloc)?;
    // Few texts need more.
    let room = elements.len().saturating_add(elements.len() / 4);
    Ok(Search {
        elements,
        memo,
        lists,
        states: Vec::new(alloc),
        choices: Vec::new(alloc),
        turned: Vec::new(alloc),
        folded: Vec::new(alloc),
        tasks: Vec::new(alloc),
        claims: Vec::with_capacity(alloc, room)?,
        moves: Vec::with_capacity(alloc, room)?,
        alloc,
    })
}

/// Searches how the table derives the tokens of a tree as a file; the tree is the one that the parser makes of them.
/// Where nothing is found, the claims show nothing.
///
/// The error means out of memory.
pub fn find_derivation(
    alloc: Global,
    input: &Input,
    output: &Output,
) -> Result<Derivation, NoMemory> {
    let elements = elements_of(alloc, output)?;
    let question = Question {
        wanted: Wanted::Row(0),
        at: 1,
        limit: elements.len(),
    };
    let mut search = new_search(alloc, elements)?;
    let walk = search.begin(question, 0, 0, usize::MAX)?;
    search.follow(input, walk)?;
    let Search { claims, moves, .. } = search;
    Ok(Derivation { claims, moves })
}
