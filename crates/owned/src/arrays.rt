// The tables of four arms, owned.
ghost use Rattle.std.specs.Prelude.{ℕ, ◌≡◌, List};
ghost use Rattle.tables.specs.Arms.{tables_of};
ghost use Rattle.owned.specs.Owned.{filled, owned};

use tables::arms::Arms;

// One table for each kind, and for each field of a row, as `Arms` has them.
#[derive(Clone, Copy, PartialEq, Eq)]
pub struct Tables {
    pub timers: [[u16; 16]; 4],
    pub registers: [[u16; 64]; 4],
    pub x: [[i32; 100]; 4],
    pub y: [[i32; 100]; 4],
    pub z: [[i32; 100]; 4],
    pub w: [[i32; 100]; 4],
    pub inputs: [[u8; 32]; 4],
    pub outputs: [[u8; 32]; 4],
    pub memory: [[u8; 16]; 4],
    pub on: [u16; 4],
}

impl Tables {
    // Tables of which every entry is n.
    pub fn filled(n: u8) -> Tables
        ensures { (m : List ℕ) → owned result m ≡ filled n m }
    {
        let (word, value) = (u16::from(n), i32::from(n));
        Tables {
            timers: [[word; 16]; 4],
            registers: [[word; 64]; 4],
            x: [[value; 100]; 4],
            y: [[value; 100]; 4],
            z: [[value; 100]; 4],
            w: [[value; 100]; 4],
            inputs: [[n; 32]; 4],
            outputs: [[n; 32]; 4],
            memory: [[n; 16]; 4],
            on: [word; 4],
        }
    }

    // Lends the tables.
    pub fn arms(&mut self) -> Arms<'_>
        ensures { (m : List ℕ) → tables_of result m ≡ owned self.old m }
    {
        Arms {
            timers: &mut self.timers,
            registers: &mut self.registers,
            x: &mut self.x,
            y: &mut self.y,
            z: &mut self.z,
            w: &mut self.w,
            inputs: &mut self.inputs,
            outputs: &mut self.outputs,
            memory: &mut self.memory,
            on: &mut self.on,
        }
    }
}
