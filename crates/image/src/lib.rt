// The service as numbers only, laid out as C lays out structs, for callers that know no enum: the types, what any such numbers mean, and what
// holds of them. An image of zeros is a service newly made on set 1 with no lock on. The code is in `image_making`, `image_controller`,
// `image_from_service` and `image_to_service`.
#![tactic(auto)]

// The flag bytes as the BIOS data area has them. Read from an image, they are the service's modifiers, held bits, locks, pause and marks; the
// bits that follow from others (either Ctrl, either Alt, an open prefix, a LED command that runs) and those that have no meaning are not read.
#[repr(C)]
#[derive(Clone, Copy, Default)]
pub struct FlagBytes {
    pub byte17: u8,
    pub byte18: u8,
    pub byte96: u8,
    pub byte97: u8,
}

// A value that may be missing: then both numbers are 0.
#[repr(C)]
#[derive(Clone, Copy, Default)]
pub struct SettingImage {
    pub known: u8,
    pub value: u8,
}

// `phase` is 0 for idle, 1 while a reply is awaited, 2 where a poll is due; any other number is read as idle. `kind` is 0 for a LED command, else a
// rate command. An idle line has no command: `kind` is then the kind whose turn it is, and the four numbers behind it are 0.
#[repr(C)]
#[derive(Clone, Copy, Default)]
pub struct CommandImage {
    pub phase: u8,
    pub kind: u8,
    pub value: u8,
    pub operand: u8,
    pub sends: u8,
    pub sent: u8,
}

// The line but for its marks, which byte 97 has.
#[repr(C)]
#[derive(Clone, Copy, Default)]
pub struct LineImage {
    pub rate: SettingImage,
    pub handled: SettingImage,
    pub command: CommandImage,
}

#[repr(C)]
#[derive(Clone, Copy, Default)]
pub struct WordImage {
    pub scan: u8,
    pub ascii: u8,
}

#[repr(C)]
#[derive(Clone, Copy)]
pub struct QueueImage {
    pub words: [WordImage; 16],
    pub head: usize,
    pub count: usize,
}

// The scanner's port, of which no flag byte tells. `prefix` is numbered as in `input`. Of a modifier bit 0 is the right key and bit 1 the left one, as
// byte 17 has the Shift keys. The last three are the held bits: of `locks` bit 0 is Scroll, 1 Num, 2 Caps; `insert` and `sysreq` are 0 or 1, and any
// other number is read as 1.
#[repr(C)]
#[derive(Clone, Copy, Default)]
pub struct PortImage {
    pub prefix: u8,
    pub sum: u8,
    pub shift: u8,
    pub ctrl: u8,
    pub alt: u8,
    pub locks: u8,
    pub insert: u8,
    pub sysreq: u8,
}

// The controller. `buffer` is 0 for empty, 1 for a key, 2 for an answer, and any other number is read as empty; `byte` is what it holds, or where it is
// empty the byte that was read last. `command` is the command byte with bit 0 turned over, so that 01, which is new, is 0 here. `awaiting` and `commanded` are 0 or 1, and any
// other number is read as 1. `spare` is zeros and not read.
#[repr(C)]
#[derive(Clone, Copy)]
pub struct ControllerImage {
    pub buffer: u8,
    pub byte: u8,
    pub command: u8,
    pub awaiting: u8,
    pub commanded: u8,
    pub spare: [u8; 3],
}

// `input` says how the next keyboard byte is read. Its lower half is the open prefix: 0 for none, 1 for E0, 2 for E1, 3 for E1 1D, 4 for E1 9D, and
// any other number is read as none. Its upper half is the codes that come: 0 for set 1, 1 for set 2, 2 for set 2 with the next code marked as a
// break, and any other number is read as set 1. `sum` is the keyboard's Alt sum. 80 bytes, none of
// them padding.
#[repr(C)]
#[derive(Clone, Copy)]
pub struct Image {
    pub flags: FlagBytes,
    pub input: u8,
    pub sum: u8,
    pub line: LineImage,
    pub queue: QueueImage,
    pub scanner: PortImage,
    pub controller: ControllerImage,
}
