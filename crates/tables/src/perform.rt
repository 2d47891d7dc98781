// One typed request on one arm. A load takes the tables as they are; a store replaces what stands under its number, and
// nothing else. What tables of different width share takes the slot's part of a table, as a slice.
ghost use Rattle.std.specs.Prelude.{◌≡◌, ◌<◌, List, ℕ, length, get_or, set, nat_abs, pos};
ghost use Rattle.replies.specs.declared.reply.Data.TheVariants as held;
ghost use Rattle.programs.specs.Memory.{step_at};
ghost use Rattle.replies.specs.Reply.{step_outcome};
ghost use Rattle.harl.specs.Message.{judge_request};
ghost use Rattle.tables.specs.Tables.{columns, row_at, each_with, with_rows, set2, loaded, stored, LoadInRange, StoreInRange, Performed};
ghost use Rattle.tables.specs.Arms.{tables_of, SameTables};

use crate::arms::Arms;
use commands::request::{Load, Request, Row, Store};
use ports::access::{
    load_port, load_signal, store_bit, store_output, store_output_port, store_port,
};
use ports::signal::{FIRST_MEMORY_BIT, FIRST_SIGNAL, place_of};
use programs::memory::Programs;
use programs::slot::Slot;
use refusals::refusal::Refusal;
use replies::reply::{Data, Outcome};

// The value of a timer or a register.
fn load_word(words: &[u16], n: u16) -> i32
    requires { n < length words.now }
    ensures { result ≡ pos (get_or words.now n 0) }
{
    words[n as usize] as i32
}

// What is replied of step n of slot's program.
fn load_program(programs: &Programs<'_>, slot: Slot, n: u16) -> Outcome
    requires { n < 256 }
    ensures { result ≡ step_outcome n (step_at programs.now.bytes.now slot.index n) }
{
    match programs.load(slot, n as u8) {
        Some(step) => Outcome::Data(Data::Step(n, step)),
        None => Outcome::Status(Refusal::Empty.number()),
    }
}

// Replaces a timer or a register by the size of a value: the sign is left off.
fn store_word(words: &mut [u16], n: u16, v: i32)
    requires { (n < length words.old) × (nat_abs v < 65536) }
    ensures { words.new ≡ set words.old n (nat_abs v) }
{
    words[n as usize] = v.unsigned_abs() as u16;
}

impl Arms<'_> {
    // The fields of a row.
    fn load_row(&self, slot: Slot, n: u16) -> Data
        requires { n < 100 }
        ensures { result ≡ held.Row (row_at slot.index n (columns self.now.x.now self.now.y.now self.now.z.now self.now.w.now)) }
    {
        let (k, i) = (slot.index, n as usize);
        let (x, y, z, w) = (&*self.x, &*self.y, &*self.z, &*self.w);
        Data::Row(Row {
            x: x[k][i],
            y: y[k][i],
            z: z[k][i],
            w: w[k][i],
        })
    }

    // What slot's arm holds under the number of a load.
    #[tactic(auto, unfolding(crate::specs::Tables::loaded))]
    fn load(&self, programs: &Programs<'_>, slot: Slot, load: Load) -> Outcome
        requires { LoadInRange load }
        ensures { result ≡ loaded slot.index load (tables_of self.now programs.now.bytes.now) }
    {
        let k = slot.index;
        // The borrow checker does not cover `&self.timers[k]`: an element of an array behind a `&mut` behind a `&`.
        let (timers, registers) = (&*self.timers, &*self.registers);
        let (inputs, outputs, memory) = (&*self.inputs, &*self.outputs, &*self.memory);
        match load {
            Load::Timer(n) => Outcome::Data(Data::Timer(load_word(&timers[k], n))),
            Load::Register(n) => Outcome::Data(Data::Register(load_word(&registers[k], n))),
            Load::Row(n) => Outcome::Data(self.load_row(slot, n)),
            Load::Input(s) => Outcome::Data(load_signal(&inputs[k], place_of(FIRST_SIGNAL, s))),
            Load::InputPort(p) => Outcome::Data(load_port(&inputs[k], p)),
            Load::Output(s) => Outcome::Data(load_signal(&outputs[k], place_of(FIRST_SIGNAL, s))),
            Load::OutputPort(p) => Outcome::Data(load_port(&outputs[k], p)),
            Load::MemoryBit(s) => {
                Outcome::Data(load_signal(&memory[k], place_of(FIRST_MEMORY_BIT, s)))
            }
            Load::MemoryPort(p) => Outcome::Data(load_port(&memory[k], p)),
            Load::Step(n) => load_program(programs, slot, n),
        }
    }

    // Replaces the fields of a row.
    fn store_row(&mut self, slot: Slot, n: u16, row: Row)
        requires { n < 100 }
        ensures tables_after { (m : List ℕ) → tables_of self.new m ≡ with_rows (tables_of self.old m) (each_with (λ c v. set2 c slot.index n v) (tables_of self.old m).rows row) }
        ensures same_tables { SameTables self.old self.new }
    {
        let (k, i) = (slot.index, n as usize);
        self.x[k][i] = row.x;
        self.y[k][i] = row.y;
        self.z[k][i] = row.z;
        self.w[k][i] = row.w;
    }

    // Replaces what slot's arm holds under the number of a store by its data.
    #[tactic(auto, unfolding(crate::specs::Tables::stored))]
    fn store(&mut self, programs: &mut Programs<'_>, slot: Slot, store: Store)
        requires { StoreInRange store }
        ensures tables_after { tables_of self.new programs.new.bytes.now ≡ stored slot.index store (tables_of self.old programs.old.bytes.now) }
        ensures same_tables { SameTables self.old self.new }
        ensures same_memory { programs.new.bytes.ghost_name ≡ programs.old.bytes.ghost_name }
    {
        let k = slot.index;
        // The borrow checker does not cover a read of `self.on[k]` while the ports are lent.
        match store {
            Store::Timer(n, v) => store_word(&mut self.timers[k], n, v),
            Store::Register(n, v) => store_word(&mut self.registers[k], n, v),
            Store::Row(n, row) => self.store_row(slot, n, row),
            Store::Output(s, v) => {
                let on = self.on[k];
                self.on[k] = store_output(&mut self.outputs[k], on, place_of(FIRST_SIGNAL, s), v);
            }
            Store::OutputPort(p, v) => {
                let on = self.on[k];
                self.on[k] = store_output_port(&mut self.outputs[k], on, p, v);
            }
            Store::MemoryBit(s, v) => {
                store_bit(&mut self.memory[k], place_of(FIRST_MEMORY_BIT, s), v)
            }
            Store::MemoryPort(p, v) => store_port(&mut self.memory[k], p, v),
            Store::Step(n, step) => programs.store(slot, n as u8, step),
        }
    }

    // Performs a request on slot's arm: a load returns its data, or EMPTY, and changes nothing; a store returns status 0.
    pub fn perform(&mut self, programs: &mut Programs<'_>, slot: Slot, request: Request) -> Outcome
        requires { judge_request request ≡ 0 }
        ensures performed { Performed slot.index request (tables_of self.old programs.old.bytes.now) (tables_of self.new programs.new.bytes.now) result }
        ensures same_tables { SameTables self.old self.new }
        ensures same_memory { programs.new.bytes.ghost_name ≡ programs.old.bytes.ghost_name }
    {
        match request {
            Request::Load(load) => self.load(programs, slot, load),
            Request::Store(store) => {
                self.store(programs, slot, store);
                Outcome::Status(0)
            }
        }
    }
}
