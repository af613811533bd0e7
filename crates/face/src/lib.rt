// The four calls for C, Rust and Python: numbers and slices go in, structs come back by value. include/loadline.h describes them to C.
#![tactic(auto)]

ghost use Rattle.std.specs.Prelude.{◌≡◌, length};
ghost use Rattle.record.specs.Layout.{ship_in};
ghost use Rattle.record.specs.Reading.{reading_in};
ghost use Rattle.record.specs.Writing.{writing_of, written};
ghost use Rattle.marks.specs.Marks.{answer_in};
ghost use Rattle.question.specs.Question.{reply_in};
ghost use Rattle.flat.specs.Flat.{ship_from};
ghost use Rattle.answers.specs.Answers.{from_sheet, from_reply, from_reading, from_verdict, Bounded};

use answers::{MarksAnswer, PoopAnswer, ReadAnswer, WriteAnswer};
use flat::FlatShip;
use ship::Ship;
use ship::refusal::Paper;

// The six marks of a ship record, and six timber marks where it asks for them: refusals 1 to 13, 18 and 22 to 24.
#[unsafe(no_mangle)]
pub extern "C" fn loadline_marks(bytes: &[u8]) -> MarksAnswer
    ensures equation { result ≡ from_sheet (answer_in bytes.now) }
    ensures bounded { Bounded result (ship_in bytes.now) }
{
    match marks::of_record(bytes) {
        Ok(g) => answers::marked(g),
        Err(r) => MarksAnswer::from(r),
    }
}

// The shortest poop of the given height in mm for which S is at most the wish in mm: refusals 1 to 11, 18 and 22 to 24, then 14, 15 and 16.
#[unsafe(no_mangle)]
pub extern "C" fn loadline_shortest_poop(bytes: &[u8], height: u64, wish: u64) -> PoopAnswer
    ensures { result ≡ from_reply (reply_in bytes.now height wish) }
{
    PoopAnswer::from(poop::of_record(bytes, height, wish))
}

// A ship record as a ship: refusals 1 to 11, 18 and 22 to 24.
#[tactic(auto, unfolding(answers::specs::Answers::from_reading))]
#[unsafe(no_mangle)]
pub extern "C" fn loadline_read(bytes: &[u8]) -> ReadAnswer
    ensures { result ≡ from_reading (reading_in bytes.now) }
{
    match reader::read(bytes) {
        Ok(x) => ReadAnswer {
            verdict: Paper::from(Ok(())),
            ship: flat::of_ship(x),
        },
        Err(r) => ReadAnswer {
            verdict: Paper::from(r),
            ship: flat::of_ship(ship::no_ship()),
        },
    }
}

// Writes a ship's record at the start of the buffer: refusals 3, 24, 4, 7 to 11, 18, 22, 23 and 17.
#[tactic(auto, unfolding(answers::specs::Answers::from_verdict))]
#[unsafe(no_mangle)]
pub extern "C" fn loadline_write(buffer: &mut [u8], ship: FlatShip) -> WriteAnswer
    ensures value { result ≡ from_verdict (writing_of (length buffer.old) (ship_from ship)) (ship_from ship) }
    ensures buffer_after { buffer.new ≡ written (writing_of (length buffer.old) (ship_from ship)) (ship_from ship) buffer.old }
{
    let x = Ship::from(ship);
    let v = writer::write(buffer, x);
    WriteAnswer {
        verdict: Paper::from(v),
        bytes: answers::length_of(v, x),
    }
}
