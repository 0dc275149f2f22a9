// The operands of instructions, as they are listed.
ghost use Rattle.std.specs.Prelude.{◌≡◌, ◌++◌, [], ◌∷◌, codes};
ghost use Rattle.cdc_text.specs.Pieces.{text_bytes, texts_bytes};
ghost use Rattle.cdc_prog.specs.Translation.{program_of};
ghost use Rattle.cdc_report.specs.Listing.{unit_name, variable, site, mark, operands, spaced, named_by};

use cdc_code::Instr;
use cdc_prog::{Mark, Object, Program, Unit, Var};
use cdc_text::Text;
use std::marker::Model;

const NOTHING: Text<'static> = Text::Words(b"");

const SPACE: Text<'static> = Text::Words(b" ");

const SITE: Text<'static> = Text::Words(b" site ");

/// What instructions name: the units and the objects of a program.
#[derive(Drop)]
pub struct Named<'a> {
    units: &'a [Unit],
    objects: &'a [Object],
}

impl<'a> Model for Named<'a> {
    ghost use Rattle.std.specs.Prelude.{map};
    ghost use Rattle.cdc_report.specs.Listing.{Named};

    ghost Value = { Named };

    ghost view = { λ n. record { units = map (λ u. u.name) n.units.now; objects = n.objects.now } };
}

impl<'a> Named<'a> {
    /// What the instructions of a program's code name.
    pub fn by(program: &'a Program) -> Named<'a>
        ensures { result ≡ named_by (program_of program.now) }
    {
        Named {
            units: program.units.as_slice(),
            objects: program.objects.as_slice(),
        }
    }

    fn unit(&self, number: u32) -> &'a [u8]
        ensures { result.now ≡ unit_name self.now number }
    {
        match self.units.get(number as usize) {
            Some(u) => u.name.as_slice(),
            None => b"",
        }
    }

    // The three parts of a variable's name.
    fn variable(&self, var: Var) -> [Text<'a>; 3]
        ensures { texts_bytes result ≡ variable self.now var }
    {
        match var {
            Var::Object(k) => match self.objects.get(k as usize) {
                Some(o) => [
                    Text::Words(self.unit(o.unit)),
                    Text::Words(b"."),
                    Text::Words(o.name.as_slice()),
                ],
                None => [NOTHING; 3],
            },
            Var::Dummy(k) => [Text::Words(b"%"), Text::Number(k as u64), NOTHING],
            Var::Slot(_) => [NOTHING; 3],
        }
    }

    // An operand without more, with a space before it.
    fn alone(text: Text<'a>) -> [Text<'a>; 8]
        ensures { texts_bytes result ≡ codes " " ++ text_bytes text.entry }
    {
        [
            SPACE, text, NOTHING, NOTHING, NOTHING, NOTHING, NOTHING, NOTHING,
        ]
    }

    /// A variable, with a space before it.
    pub fn of_variable(&self, var: Var) -> [Text<'a>; 8]
        ensures { texts_bytes result ≡ spaced (variable self.now var ∷ []) }
    {
        let [unit, point, name] = self.variable(var);
        [SPACE, unit, point, name, NOTHING, NOTHING, NOTHING, NOTHING]
    }

    // A variable and a site, each with a space before it.
    fn of_write(&self, var: Var, at: u32) -> [Text<'a>; 8]
        ensures { texts_bytes result ≡ spaced (variable self.now var ∷ site at ∷ []) }
    {
        let [unit, point, name] = self.variable(var);
        let number = Text::Number(at as u64);
        [SPACE, unit, point, name, SITE, number, NOTHING, NOTHING]
    }

    // A variable, a site and a mark, each with a space before it.
    fn of_read(&self, var: Var, at: u32, how: Mark) -> [Text<'a>; 8]
        ensures { texts_bytes result ≡ spaced (variable self.now var ∷ site at ∷ mark how ∷ []) }
    {
        let [unit, point, name] = self.variable(var);
        let number = Text::Number(at as u64);
        match how {
            Mark::Ordinary => {
                let ordinary = Text::Words(b" ordinary");
                [SPACE, unit, point, name, SITE, number, ordinary, NOTHING]
            }
            Mark::Time(d) => {
                let time = Text::Words(b" time ");
                let distance = Text::Number(d as u64);
                [SPACE, unit, point, name, SITE, number, time, distance]
            }
        }
    }

    /// The operands of an instruction, each with a space before it.
    pub fn operands(&self, instr: Instr) -> [Text<'a>; 8]
        ensures { texts_bytes result ≡ spaced (operands self.now instr) }
    {
        match instr {
            Instr::Const(n) => Named::alone(Text::Whole(n)),
            Instr::Local(k) => Named::alone(Text::Number(k as u64)),
            Instr::Setlocal(k) => Named::alone(Text::Number(k as u64)),
            Instr::Text(k) => Named::alone(Text::Number(k as u64)),
            Instr::Jump(d) => Named::alone(Text::Whole(d as i64)),
            Instr::Jumpz(d) => Named::alone(Text::Whole(d as i64)),
            Instr::Dotest(d) => Named::alone(Text::Whole(d as i64)),
            Instr::Call(u) => Named::alone(Text::Words(self.unit(u))),
            Instr::Index(v) | Instr::Arg(v) => self.of_variable(v),
            Instr::Store(v, s) | Instr::Storee(v, s) => self.of_write(v, s),
            Instr::Load(v, s, m) | Instr::Loade(v, s, m) => self.of_read(v, s, m),
            Instr::Fork(n, d) => {
                let number = Text::Number(n as u64);
                let place = Text::Whole(d as i64);
                [
                    SPACE, number, SPACE, place, NOTHING, NOTHING, NOTHING, NOTHING,
                ]
            }
            _ => [NOTHING; 8],
        }
    }
}
