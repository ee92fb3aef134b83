//! A client.
use crate::call::{Begun, OpenCall};
use crate::copies::copy_answer;
use crate::effects::{ClientEffects, Said};
use crate::ending::Ending;
use crate::first::first_of;
use crate::lines::Lines;
use crate::task::Task;
use crate::waiting::Waiting;
use chain_leader::{About, ChainBody};
use graph_model::{Answer, CallId};
use lists::NoMemory;
use replica_model::{Body, Packet};
use schema_book::Bound;
use std::alloc::Global;
use std::collections::VecDeque;
use std::mem::replace;

/// The call that is open, its statement, and those that wait.
#[derive(Drop)]
pub struct Busy {
    pub(crate) call: OpenCall,
    pub(crate) task: Task,
    pub(crate) waiting: VecDeque<Waiting>,
}

/// A client: its number, the number of its last call, and what it does where a call is open.
#[derive(Drop)]
pub struct Client {
    pub(crate) number: u32,
    pub(crate) last: u64,
    pub(crate) busy: Option<Busy>,
    pub(crate) lines: Lines,
}

impl Busy {
    ghost use Rattle.std.specs.FinMap.{insert};
    ghost use Rattle.std.specs.Prelude.{◌≡◌, ◌++◌, ◌∷◌, [], None, OnOk, OnErr};

    /// A statement stands behind the others, with a place for its line. Refused for want of memory alone, and then all is as it was.
    fn queue(&mut self, lines: &mut Lines, waiting: Waiting) -> Result<(), NoMemory>
        ensures held { OnOk result (lines.new ≡ insert lines.old waiting.task.line None) }
        ensures lines { OnErr result (lines.new ≡ lines.old) }
        ensures ok { OnOk result (self.new.waiting.items ≡ self.old.waiting.items ++ waiting ∷ []) }
        ensures call { self.new.call ≡ self.old.call }
        ensures task { self.new.task ≡ self.old.task }
        ensures err { OnErr result (self.new.waiting.items ≡ self.old.waiting.items) }
    {
        self.waiting.reserve(1)?;
        lines.hold(waiting.task.line)?;
        self.waiting.push_back_reserved(waiting);
        Ok(())
    }
}

impl Client {
    ghost use Rattle.std.specs.Prelude.{◌≡◌, ◌<◌, ◌≤◌, ◌+◌, ◌++◌, ◌∷◌, [], ℕ, suc, true, None, Some, OnOk, OnErr, IfOk, IsOk};
    ghost use Rattle.std.specs.List.{AllByRecursion};
    ghost use Rattle.std.specs.Option.{option_map, option_copied};
    ghost use Rattle.graph_model.specs.declared.answer.Answer.TheVariants.{Unknown};
    ghost use Rattle.statement_run.specs.Bound.{statement_of};
    ghost use Rattle.statement_run.specs.Statement.{Statement, starting, unended, told as told_all};
    ghost use Rattle.statement_run.specs.Task.{fresh};
    ghost use Rattle.statement_run.specs.Caller.{Caller, Open, nobody, queued, rounded, fits, replied};
    ghost use Rattle.statement_run.specs.Settled.{settled, invokes, requests, ended, went, due_by, reply_by, invokes_by, requests_by, due_of, answered_by, hinted_by, reply_to, repeats};
    ghost use Rattle.statement_run.specs.Made.{IsMade, said_of};
    ghost use Rattle.statement_run.specs.Waiting.{Waits, fresh_all};
    ghost use Rattle.statement_run.specs.Client.{Shows, IsFree};
    ghost use Rattle.statement_run.specs.Kept.{nothing_kept, held, noted, noted_in, noted_by, ended_at, line_of, lines_waiting, kept_by};
    ghost use Rattle.statement_run.specs.declared.client.Busy.{Busy};

    /// A client of a number, without a statement. It takes no memory until a statement is queued.
    pub fn new(alloc: Global, number: u32) -> Result<Client, NoMemory>
        ensures made { IsOk result }
        ensures shows { IfOk result (λ client. Shows client nobody) }
        ensures kept { IfOk result (λ client. kept_by client ≡ nothing_kept) }
        ensures number { IfOk result (λ client. client.number ≡ number) }
    {
        Ok(Client {
            number,
            last: 0,
            busy: None,
            lines: Lines::new(alloc),
        })
    }

    /// How the statement of a line ended; none where it hasn't ended.
    pub fn answer(&self, line: u64) -> Option<&Ending>
        ensures { option_copied result ≡ ended_at line (kept_by self.now) }
    {
        self.lines.answer(line)
    }

    /// A statement of a line, its calls routed by so many parts, stands behind the others; where no call is open, its first one
    /// begins. Refused for want of memory alone, and then the client shows what it showed.
    #[tactic(auto, using(crate::proofs::Showing::queued_behind, crate::proofs::Showing::queued_quietly, crate::proofs::Showing::kept))]
    pub fn invoke(
        &mut self,
        alloc: Global,
        line: u64,
        parts: u32,
        bound: Bound,
    ) -> Result<ClientEffects, NoMemory>
        requires parts { (0 < parts) × (parts ≤ 64) }
        ensures shows { (c : Caller) → Shows self.old c → OnOk result (Shows self.new (settled self.old.number (queued c (statement_of parts bound)))) }
        ensures made { (c : Caller) → Shows self.old c → (let then = queued c (statement_of parts bound) in IfOk result (IsMade None (invokes self.old.number then) (requests self.old.number then))) }
        ensures kept { (c : Caller) → Shows self.old c
            → OnOk result (kept_by self.new ≡ noted (unended c.queue ++ starting (statement_of parts bound) ∷ []) (held (record { number = line; bound = bound }) (kept_by self.old))) }
        ensures unkept { OnErr result (kept_by self.new ≡ kept_by self.old) }
        ensures number { self.new.number ≡ self.old.number }
        ensures err { (c : Caller) → Shows self.old c → OnErr result (Shows self.new c) }
    {
        let waiting = Waiting::new(alloc, line, parts, bound)?;
        let Some(mut busy) = replace(&mut self.busy, None) else {
            return self.start(alloc, waiting);
        };
        let queued = busy.queue(&mut self.lines, waiting);
        self.busy = Some(busy);
        queued?;
        Ok(ClientEffects::none())
    }

    /// A statement starts where no call is open: its first call begins, if it has one.
    #[tactic(auto, using(crate::proofs::Showing::queued_free))]
    fn start(&mut self, alloc: Global, waiting: Waiting) -> Result<ClientEffects, NoMemory>
        requires waits { Waits waiting }
        requires idle { self.old.busy ≡ None }
        ensures shows { (c : Caller) (statement : Statement) → Shows self.old c → fresh waiting.task ≡ starting statement → OnOk result (Shows self.new (settled self.old.number (queued c statement))) }
        ensures made { (c : Caller) (statement : Statement) → Shows self.old c → fresh waiting.task ≡ starting statement
            → IfOk result (IsMade None (invokes self.old.number (queued c statement)) (requests self.old.number (queued c statement))) }
        ensures kept { OnOk result (kept_by self.new ≡ noted (fresh waiting.task ∷ []) (held (line_of waiting.task) (kept_by self.old))) }
        ensures number { self.new.number ≡ self.old.number }
        ensures err { OnErr result (self.new ≡ self.old) }
    {
        let Some(last) = self.last.checked_add(1) else {
            return Err(NoMemory);
        };
        let line = waiting.task.line;
        let mut queue = VecDeque::new(alloc);
        queue.push_back(waiting)?;
        self.lines.hold(line)?;
        Ok(self.begin(queue, last, None))
    }

    /// The first call of these statements begins, under this number.
    #[tactic(auto, using(crate::proofs::Settling::shows_none, crate::proofs::Settling::made_none, crate::proofs::Settling::shows_first, crate::proofs::Settling::made_first))]
    fn begin(&mut self, waiting: VecDeque<Waiting>, last: u64, reply: Option<Said>) -> ClientEffects
        requires waits { AllByRecursion Waits waiting.items }
        requires last { last ≡ suc self.old.last }
        ensures shows { (c : Caller) → IsFree waiting.items self.old.last c → Shows self.new (settled self.old.number c) }
        ensures kept { kept_by self.new ≡ noted_in (lines_waiting waiting.items) (fresh_all waiting.items) self.old.lines }
        ensures made { (c : Caller) → IsFree waiting.items self.old.last c → IsMade (option_map said_of reply) (invokes self.old.number c) (requests self.old.number c) result }
        ensures number { self.new.number ≡ self.old.number }
    {
        let mut waiting = waiting;
        let id = CallId {
            client: self.number,
            number: last,
        };
        match first_of(&mut waiting, &mut self.lines, id) {
            Some((task, begun)) => {
                let Begun {
                    call,
                    invoke,
                    packet,
                } = begun;
                self.last = last;
                self.busy = Some(Busy {
                    call,
                    task,
                    waiting,
                });
                ClientEffects {
                    reply,
                    next: Some(invoke),
                    packet: Some(packet),
                }
            }
            None => {
                self.busy = None;
                ClientEffects {
                    reply,
                    next: None,
                    packet: None,
                }
            }
        }
    }

    /// A packet: the first answer of the open call that fits it ends the call, and the next call begins; a NotLeader about the open
    /// call is a hint; any other packet changes nothing. Refused for want of memory alone, and then all is as it was.
    #[tactic(auto, using(crate::proofs::Hearing::heard_answer, crate::proofs::Hearing::heard_hint))]
    pub fn on_packet(&mut self, alloc: Global, packet: &Packet) -> Result<ClientEffects, NoMemory>
        requires sound { (c : Caller) × Shows self.old c }
        ensures shows { (c : Caller) (k : ℕ) → Shows self.old c → OnOk result (Shows self.new (went self.old.number c packet.now k)) }
        ensures made { (c : Caller) (k : ℕ) → Shows self.old c → (let due = due_by c packet.now k in
            IfOk result (IsMade (reply_by c due) (invokes_by self.old.number c due) (requests_by self.old.number c due))) }
        ensures kept { (c : Caller) (k : ℕ) → Shows self.old c → OnOk result (kept_by self.new ≡ noted_by c.queue (due_by c packet.now k) (kept_by self.old)) }
        ensures number { self.new.number ≡ self.old.number }
        ensures err { OnErr result (self.new ≡ self.old) }
    {
        let Body::Chain(said) = &packet.body else {
            return Ok(ClientEffects::none());
        };
        match said {
            ChainBody::Answer(number, answer) => self.on_answer(alloc, *number, answer),
            ChainBody::NotLeader(About::Call(number), _, hint) => {
                self.on_hint(*number, *hint);
                Ok(ClientEffects::none())
            }
            _ => Ok(ClientEffects::none()),
        }
    }

    /// An answer of a call: it ends the open one where it fits it. Refused for want of memory alone, and then all is as it was.
    fn on_answer(
        &mut self,
        alloc: Global,
        number: u64,
        answer: &Answer,
    ) -> Result<ClientEffects, NoMemory>
        requires sound { (c : Caller) × Shows self.old c }
        ensures shows { (c : Caller) → Shows self.old c → OnOk result (Shows self.new (answered_by self.old.number c (due_of c.call number answer.now))) }
        ensures made { (c : Caller) → Shows self.old c → (let due = due_of c.call number answer.now in
            IfOk result (IsMade (reply_by c due) (invokes_by self.old.number c due) (requests_by self.old.number c due))) }
        ensures kept { (c : Caller) → Shows self.old c → OnOk result (kept_by self.new ≡ noted_by c.queue (due_of c.call number answer.now) (kept_by self.old)) }
        ensures number { self.new.number ≡ self.old.number }
        ensures err { OnErr result (self.new ≡ self.old) }
    {
        let Some(busy) = &self.busy else {
            return Ok(ClientEffects::none());
        };
        if !busy.call.is_answered(number, answer) {
            return Ok(ClientEffects::none());
        }
        let Some(last) = self.last.checked_add(1) else {
            return Err(NoMemory);
        };
        let said = Said {
            id: busy.call.id,
            answer: copy_answer(alloc, answer)?,
        };
        let told = copy_answer(alloc, answer)?;
        self.go_on(alloc, last, said, told)
    }

    /// The open call ends with an answer that fits it; the next call begins under this number. Refused for want of memory alone,
    /// and then all is as it was.
    fn go_on(
        &mut self,
        alloc: Global,
        last: u64,
        said: Said,
        told: Answer,
    ) -> Result<ClientEffects, NoMemory>
        requires sound { (c : Caller) × Shows self.old c }
        requires open { (b : Busy) × (self.old.busy ≡ Some b) × (fits told b.call.op ≡ true) }
        requires last { last ≡ suc self.old.last }
        ensures shows { (c : Caller) → Shows self.old c → OnOk result (Shows self.new (ended self.old.number c told)) }
        ensures made { (c : Caller) → Shows self.old c
            → IfOk result (IsMade (Some (said_of said)) (invokes self.old.number (replied c told)) (requests self.old.number (replied c told))) }
        ensures kept { (c : Caller) → Shows self.old c → OnOk result (kept_by self.new ≡ noted (told_all told c.queue) (kept_by self.old)) }
        ensures number { self.new.number ≡ self.old.number }
        ensures err { OnErr result (self.new ≡ self.old) }
    {
        let Some(mut busy) = replace(&mut self.busy, None) else {
            unreachable!();
        };
        let id = CallId {
            client: self.number,
            number: last,
        };
        match busy.task.tell(alloc, id, told) {
            Ok(Some(begun)) => {
                let Begun {
                    call,
                    invoke,
                    packet,
                } = begun;
                busy.call = call;
                self.busy = Some(busy);
                self.last = last;
                Ok(ClientEffects {
                    reply: Some(said),
                    next: Some(invoke),
                    packet: Some(packet),
                })
            }
            Ok(None) => {
                let Busy { task, waiting, .. } = busy;
                self.lines.fill(task.line, task.ended());
                Ok(self.begin(waiting, last, Some(said)))
            }
            Err(NoMemory) => {
                self.busy = Some(busy);
                Err(NoMemory)
            }
        }
    }

    /// The statement whose call was open ends by Unknown, its last answer of so many: the first call of those that wait begins, under
    /// this number.
    fn next_statement(&mut self, last: u64, calls: u32, said: Said) -> ClientEffects
        requires sound { (c : Caller) × Shows self.old c }
        requires busy { (b : Busy) × (self.old.busy ≡ Some b) × (calls ≡ b.task.tally.calls + 1) }
        requires last { last ≡ suc self.old.last }
        ensures shows { (c : Caller) → Shows self.old c → Shows self.new (ended self.old.number c Unknown) }
        ensures made { (c : Caller) → Shows self.old c
            → IsMade (Some (said_of said)) (invokes self.old.number (replied c Unknown)) (requests self.old.number (replied c Unknown)) result }
        ensures kept { (c : Caller) → Shows self.old c → kept_by self.new ≡ noted (told_all Unknown c.queue) (kept_by self.old) }
        ensures number { self.new.number ≡ self.old.number }
    {
        let Some(busy) = replace(&mut self.busy, None) else {
            unreachable!();
        };
        let Busy {
            mut task,
            waiting,
            ..
        } = busy;
        task.give_up(calls);
        self.lines.fill(task.line, task.ended());
        self.begin(waiting, last, Some(said))
    }

    /// A NotLeader about a call: where that call is open, the peer that it names is where the call is sent next.
    #[tactic(auto, using(crate::proofs::Showing::hinted_here, crate::proofs::Showing::hinted_apart, crate::proofs::Showing::hinted_idle))]
    fn on_hint(&mut self, number: u64, hint: u32)
        ensures shows { (c : Caller) → Shows self.old c → Shows self.new (hinted_by c c.call number hint) }
        ensures kept { kept_by self.new ≡ kept_by self.old }
        ensures number { self.new.number ≡ self.old.number }
    {
        let Some(busy) = &mut self.busy else {
            return;
        };
        if number == busy.call.id.number {
            busy.call.hint = hint;
        }
    }

    /// A Round: the open call is sent again, to the peer that was named since it was sent last, or by its count of Rounds.
    /// Refused for want of memory alone, and then all is as it was.
    #[tactic(auto, using(crate::proofs::Showing::rounded_busy, crate::proofs::Showing::rounded_idle, crate::proofs::Showing::repeated, crate::proofs::Showing::repeated_idle))]
    pub fn on_round(&mut self, alloc: Global) -> Result<ClientEffects, NoMemory>
        requires sound { (c : Caller) × Shows self.old c }
        ensures shows { (c : Caller) → Shows self.old c → OnOk result (Shows self.new (rounded c)) }
        ensures made { (c : Caller) → Shows self.old c → IfOk result (IsMade None None (repeats c.call)) }
        ensures kept { kept_by self.new ≡ kept_by self.old }
        ensures number { self.new.number ≡ self.old.number }
        ensures err { OnErr result (self.new ≡ self.old) }
    {
        let Some(busy) = &self.busy else {
            return Ok(ClientEffects::none());
        };
        let count = busy.call.count.saturating_add(1);
        let packet = busy.call.request(alloc, count)?;
        self.sent_again(count);
        Ok(ClientEffects {
            reply: None,
            next: None,
            packet: Some(packet),
        })
    }

    /// The open call was sent again, by this count of Rounds; its hint is used up.
    fn sent_again(&mut self, count: u32)
        ensures open { (b : Busy) → self.old.busy ≡ Some b → self.new.busy ≡ Some (record b { call = record b.call { count = count; hint = 0 } }) }
        ensures last { self.new.last ≡ self.old.last }
        ensures kept { kept_by self.new ≡ kept_by self.old }
        ensures number { self.new.number ≡ self.old.number }
    {
        if let Some(busy) = &mut self.busy {
            busy.call.count = count;
            busy.call.hint = 0;
        }
    }

    /// The open call ends with Unknown behind 64 Rounds, and with it its statement; the next statement's first call begins.
    /// Refused for want of memory alone, and then all is as it was.
    #[tactic(auto, using(crate::proofs::Showing::stopped_free, crate::proofs::Showing::said_made))]
    pub fn expire(&mut self) -> Result<ClientEffects, NoMemory>
        requires open { (c : Caller) × (call : Open) × Shows self.old c × (c.call ≡ Some call) × (call.count ≡ 64) }
        ensures shows { (c : Caller) → Shows self.old c → OnOk result (Shows self.new (ended self.old.number c Unknown)) }
        ensures made { (c : Caller) → Shows self.old c → IfOk result (IsMade (reply_to c.call Unknown) (invokes self.old.number (replied c Unknown)) (requests self.old.number (replied c Unknown))) }
        ensures kept { (c : Caller) → Shows self.old c → OnOk result (kept_by self.new ≡ noted (told_all Unknown c.queue) (kept_by self.old)) }
        ensures number { self.new.number ≡ self.old.number }
        ensures err { OnErr result (self.new ≡ self.old) }
    {
        let Some(last) = self.last.checked_add(1) else {
            return Err(NoMemory);
        };
        let Some(busy) = &self.busy else {
            unreachable!();
        };
        let Some(calls) = busy.task.tally.calls.checked_add(1) else {
            return Err(NoMemory);
        };
        let said = Said {
            id: busy.call.id,
            answer: Answer::Unknown,
        };
        Ok(self.next_statement(last, calls, said))
    }
}
