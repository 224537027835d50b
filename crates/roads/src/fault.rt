ghost use Rattle.std.specs.Prelude.{◌≡◌};
ghost use Rattle.roads.specs.Faults.{draft_number, network_number};

// Why a draft refuses a call.
#[derive(Clone, Copy, Debug, PartialEq, Eq)]
pub enum DraftFault {
    // The road names a place that has not been added.
    UnknownPlace = 6,
    // As many places exist as a network may have.
    PlacesFull = 7,
    // As many roads exist as a network may have, or the road table has no entry left.
    RoadsFull = 8,
    // A network needs a place.
    NoPlace = 9,
    // The road table is not the one that the draft filled.
    ForeignTable = 22,
}

impl DraftFault {
    // The number by which the refusal is known. Each enum whose refusals have numbers has this method: its contract names that enum's
    // numbers.
    pub fn number(&self) -> u32
        ensures { result ≡ draft_number self.now }
    {
        *self as u32 // 6 to 9, or 22
    }
}

// Why a network refuses to alter a road. Like the other enums of refusals, but the cases are its own.
#[derive(Clone, Copy, Debug, PartialEq, Eq)]
pub enum NetworkFault {
    // A road has four marks.
    NoSuchMark = 10,
    // The network has no road of that number.
    NoSuchRoad = 11,
    // The road table is not one of this network's.
    ForeignTable = 22,
}

impl NetworkFault {
    // The number by which the refusal is known. A method, since a cast has no contract to state the number in.
    pub fn number(&self) -> u32
        ensures { result ≡ network_number self.now }
    {
        *self as u32 // 10, 11 or 22
    }
}
