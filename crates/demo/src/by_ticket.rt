use crate::answers::Told;
use crate::drive::{CLOCK_LIMIT, three_tasks};
use crate::names::{FACTORY, Task, WORDS, Word};
use crate::page;
use contention::policy::Policy;
use contention::suicide::Suicide;
use rules::answer::Answer;
use rules::ending::Sealed;
use std::io;
use stores::plain::PlainStore;
use stores::word_store::WordStore;
use tickets::outcomes::{Kept, Sealing};
use tickets::tasks::Tasks;
use tickets::ticket::{IdleTicket, OpenTicket};

// The memory of a drive whose tasks hold tickets in place of thread numbers. Each call is made, and printed with its answer.
#[derive(Drop)]
struct Desk<'a, S, P> {
    rt: &'a HostRuntime,
    tasks: Tasks<S, P>,
}

// The keypad and the loop hold tickets in place of thread numbers.
pub fn show(rt: &HostRuntime) -> io::Result<()> {
    println!(rt; "")?;
    page::heading(rt, "6. The keypad change by tickets (plain store, Suicide)")?;
    let set_up = three_tasks(CLOCK_LIMIT)?;
    let mut cells = [0; WORDS];
    let mut other_cells = [0; WORDS];
    let tasks = Tasks::new(set_up, PlainStore::new(&mut cells), Suicide);
    let mut other = Tasks::new(set_up, PlainStore::new(&mut other_cells), Suicide);
    let mut desk = Desk { rt, tasks };
    let shown = changed_and_read(&mut desk, &mut other);
    drop(desk);
    drop(other);
    shown?;
    println!(rt; "\nThe cells of the drive: {cells:?}, of the other one: {other_cells:?}")
}

// The claims, the change of the keypad, and the read of the loop.
fn changed_and_read<S: WordStore, O: WordStore, P: Policy>(
    desk: &mut Desk<'_, S, P>,
    other: &mut Tasks<O, P>,
) -> io::Result<()> {
    desk.note("The keypad claims its ticket, once; nobody claims thread 9.")?;
    let Some(keypad) = desk.claim(Task::Keypad)? else {
        return Ok(());
    };
    let _ = desk.claim(Task::Keypad)?;
    let _ = desk.claim(Task::Unknown(9))?;
    desk.change(keypad)?;
    desk.note("The loop reads with a ticket of its own, which does nothing in another drive.")?;
    if let Some(control) = desk.claim(Task::ControlLoop)? {
        desk.read(other, control)?;
    }
    Ok(())
}

impl<'a, S, P> Desk<'a, S, P> {
    // Prints what happens next.
    fn note(&self, text: &str) -> io::Result<()> {
        page::note(self.rt, text)
    }

    // Prints an action of a task with its answer.
    fn tell(&self, task: Task, action: &str, answer: Answer) -> io::Result<()> {
        page::line(self.rt, task, action, Told(answer))
    }

    // Claims the ticket of a task.
    fn claim(&mut self, task: Task) -> io::Result<Option<IdleTicket>> {
        let (ticket, answer) = match self.tasks.claim(task.into()) {
            Ok(ticket) => (Some(ticket), Answer::Done),
            Err(refusal) => (None, Answer::Refused(refusal)),
        };
        self.tell(task, "claim", answer)?;
        Ok(ticket)
    }
}

impl<'a, S: WordStore, P: Policy> Desk<'a, S, P> {
    // Begins a transaction of a task.
    fn begin(&mut self, task: Task, idle: IdleTicket) -> io::Result<Option<OpenTicket>> {
        let (ticket, answer) = match self.tasks.begin(idle) {
            Ok(open) => (Some(open), Answer::Done),
            Err(kept) => (None, Answer::Refused(kept.reason)),
        };
        page::call(self.rt, task.begin(), answer)?;
        Ok(ticket)
    }

    // Changes all three words in one transaction, from the begin to the hand-in.
    fn change(&mut self, idle: IdleTicket) -> io::Result<()> {
        self.note("The keypad begins, stores three words, seals and drains to the end.")?;
        let Some(open) = self.begin(Task::Keypad, idle)? else {
            return Ok(());
        };
        for (word, value) in FACTORY.words() {
            let answer = Answer::from(self.tasks.store(&open, word.into(), value));
            page::call(self.rt, Task::Keypad.store(word, value), answer)?;
        }
        self.seal(Task::Keypad, open)
    }

    // The loop reads two words; the same ticket in another drive is refused there.
    fn read<O: WordStore>(&mut self, other: &mut Tasks<O, P>, idle: IdleTicket) -> io::Result<()> {
        let Some(open) = self.begin(Task::ControlLoop, idle)? else {
            return Ok(());
        };
        self.load(&open, Word::Speed)?;
        let elsewhere = Answer::from(other.load(&open, Word::Speed.into()));
        self.tell(Task::ControlLoop, "load in the other drive", elsewhere)?;
        self.load(&open, Word::CurrentLimit)?;
        self.seal(Task::ControlLoop, open)
    }

    // Loads a word in the loop's transaction.
    fn load(&mut self, open: &OpenTicket, word: Word) -> io::Result<()> {
        let answer = Answer::from(self.tasks.load(open, word.into()));
        page::call(self.rt, Task::ControlLoop.load(word), answer)
    }

    // Seals a task's transaction, drains it to the end if it stored something, and hands the ticket in.
    fn seal(&mut self, task: Task, open: OpenTicket) -> io::Result<()> {
        let idle = match self.tasks.seal(open) {
            Ok(Sealing::Updater { ticket, number }) => {
                let drained = self.tasks.drain_all(ticket);
                let sealed = Sealed::Updater { ticket: number };
                page::call(self.rt, task.seal(), Answer::Sealed(sealed))?;
                let (idle, answer) = match drained {
                    Ok(idle) => (idle, Answer::Left(0)),
                    Err(Kept { ticket, reason }) => (ticket, Answer::Refused(reason)),
                };
                self.tell(task, "drain to the end", answer)?;
                idle
            }
            Ok(Sealing::Reader { ticket, snapshot }) => {
                let sealed = Sealed::Reader { snapshot };
                page::call(self.rt, task.seal(), Answer::Sealed(sealed))?;
                ticket
            }
            Err(kept) => return page::call(self.rt, task.seal(), Answer::from(kept.reason)),
        };
        self.tasks.hand_in(idle);
        self.tell(task, "hand in", Answer::Done)
    }
}
