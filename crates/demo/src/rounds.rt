use crate::drive::Drive;
use crate::names::{Settings, Task, Word};
use contention::policy::Policy;
use std::io;
use stores::word_store::WordStore;

impl<'a, S: WordStore, P: Policy> Drive<'a, S, P> {
    // Has a task load all three words.
    pub fn load_all(&mut self, task: Task) -> io::Result<()> {
        self.make(&[
            task.load(Word::Ramp),
            task.load(Word::Speed),
            task.load(Word::CurrentLimit),
        ])
    }

    // Has a task store all three words.
    pub fn store_all(&mut self, task: Task, settings: Settings) -> io::Result<()> {
        for (word, value) in settings.words() {
            self.make(&[task.store(word, value)])?;
        }
        Ok(())
    }

    // Has a task read all three words in a transaction of their own.
    pub fn read(&mut self, task: Task) -> io::Result<()> {
        self.make(&[task.begin()])?;
        self.load_all(task)?;
        self.make(&[task.seal()])
    }

    // Has a task change all three words in one transaction, to the last drain.
    pub fn change(&mut self, task: Task, settings: Settings) -> io::Result<()> {
        self.make(&[task.begin()])?;
        self.store_all(task, settings)?;
        self.make(&[task.seal(), task.drain(), task.drain(), task.drain()])
    }
}
