// The fields of a state in the order of the case file, a byte each.
use std::slice;
use tia::{Latches, Object, Objects, Registers, State};

// How many fields a state has.
pub(crate) const FIELDS: usize = 69;

// What is done with one field after another.
pub(crate) trait Visitor {
    // A field that is a number.
    fn byte(&mut self, field: &mut u8);

    // A field that is a flag.
    fn flag(&mut self, field: &mut bool);
}

// The four fields of an object.
fn visit_object(object: &mut Object, visitor: &mut impl Visitor) {
    visitor.byte(&mut object.position);
    visitor.byte(&mut object.age);
    visitor.byte(&mut object.motion);
    visitor.flag(&mut object.live);
}

// The five objects, then the players' sizes.
fn visit_objects(objects: &mut Objects, visitor: &mut impl Visitor) {
    visit_object(&mut objects.p0.body, visitor);
    visit_object(&mut objects.p1.body, visitor);
    visit_object(&mut objects.m0, visitor);
    visit_object(&mut objects.m1, visitor);
    visit_object(&mut objects.bl, visitor);
    visitor.byte(&mut objects.p0.size);
    visitor.byte(&mut objects.p1.size);
}

// The fifteen latches.
fn visit_latches(latches: &mut Latches, visitor: &mut impl Visitor) {
    visitor.flag(&mut latches.m0p1);
    visitor.flag(&mut latches.m0p0);
    visitor.flag(&mut latches.m1p0);
    visitor.flag(&mut latches.m1p1);
    visitor.flag(&mut latches.p0pf);
    visitor.flag(&mut latches.p0bl);
    visitor.flag(&mut latches.p1pf);
    visitor.flag(&mut latches.p1bl);
    visitor.flag(&mut latches.m0pf);
    visitor.flag(&mut latches.m0bl);
    visitor.flag(&mut latches.m1pf);
    visitor.flag(&mut latches.m1bl);
    visitor.flag(&mut latches.blpf);
    visitor.flag(&mut latches.p0p1);
    visitor.flag(&mut latches.m0m1);
}

// The registers but for the colours.
fn visit_registers(registers: &mut Registers, visitor: &mut impl Visitor) {
    visitor.byte(&mut registers.nusiz0.copies);
    visitor.byte(&mut registers.nusiz0.width);
    visitor.byte(&mut registers.nusiz1.copies);
    visitor.byte(&mut registers.nusiz1.width);
    visitor.byte(&mut registers.playfield.ctrlpf);
    visitor.flag(&mut registers.graphic0.reflected);
    visitor.flag(&mut registers.graphic1.reflected);
    visitor.byte(&mut registers.playfield.pf0);
    visitor.byte(&mut registers.playfield.pf1);
    visitor.byte(&mut registers.playfield.pf2);
    visitor.byte(&mut registers.graphic0.new);
    visitor.byte(&mut registers.graphic0.old);
    visitor.byte(&mut registers.graphic1.new);
    visitor.byte(&mut registers.graphic1.old);
    visitor.flag(&mut registers.enam0);
    visitor.flag(&mut registers.enam1);
    visitor.flag(&mut registers.enabl.new);
    visitor.flag(&mut registers.enabl.old);
    visitor.flag(&mut registers.graphic0.delayed);
    visitor.flag(&mut registers.graphic1.delayed);
    visitor.flag(&mut registers.enabl.delayed);
}

// The 69 fields of a state, each once.
pub(crate) fn visit_state(state: &mut State, visitor: &mut impl Visitor) {
    visitor.byte(&mut state.timing.h);
    visit_objects(&mut state.objects, visitor);
    visitor.byte(&mut state.timing.slot);
    visitor.flag(&mut state.timing.late);
    visit_latches(&mut state.latches, visitor);
    visit_registers(&mut state.registers, visitor);
    visitor.byte(&mut state.colours.colup0);
    visitor.byte(&mut state.colours.colup1);
    visitor.byte(&mut state.colours.colupf);
    visitor.byte(&mut state.colours.colubk);
    visitor.byte(&mut state.objects.p0.drawing.pixel);
    visitor.byte(&mut state.objects.p0.drawing.shown);
    visitor.byte(&mut state.objects.p1.drawing.pixel);
    visitor.byte(&mut state.objects.p1.drawing.shown);
}

// Gives each field the next byte.
#[derive(Drop)]
struct Filler<'a>(slice::Iter<'a, u8>);

impl Visitor for Filler<'_> {
    fn byte(&mut self, field: &mut u8) {
        if let Some(&byte) = self.0.next() {
            *field = byte;
        }
    }

    fn flag(&mut self, field: &mut bool) {
        if let Some(&byte) = self.0.next() {
            *field = byte != 0;
        }
    }
}

// The state with these bytes as its fields.
pub(crate) fn state_from(bytes: &[u8]) -> State {
    let mut state = State::start();
    visit_state(&mut state, &mut Filler(bytes.iter()));
    state
}
