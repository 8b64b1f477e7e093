// The largest figures and the places of a window's sections, as constants of the window's types.
// `most`, `begins`, `sizes` and `size` tie them to the definitions, so that neither can drift.
#![tactic(auto)]

ghost use Rattle.std.specs.Prelude.{◌≡◌};
ghost use Rattle.layout.specs.Codec.{head_at, head_size, values_at, values_size, changes_at, changes_size, line_at, line_size, locks_at, locks_size, permits_at, permits_size, ties_at, ties_size, log_at, log_size, window_size};
ghost use Rattle.layout.specs.Figures.{AreLargest};

#[derive(Drop)]
pub struct Window;

impl Window {
    pub const SIZE: usize = 37952;
}

#[derive(Drop)]
pub struct Header;

impl Header {
    pub const AT: usize = 0;

    pub const SIZE: usize = 64;
}

#[derive(Drop)]
pub struct Entries;

impl Entries {
    pub const AT: usize = 64;

    pub const SIZE: usize = 1024;

    pub const MOST: usize = 256;
}

#[derive(Drop)]
pub struct Changes;

impl Changes {
    pub const AT: usize = 1088;

    pub const SIZE: usize = 1024;

    pub const MOST: usize = 255;
}

#[derive(Drop)]
pub struct Line;

impl Line {
    pub const AT: usize = 2112;

    pub const SIZE: usize = 1024;

    // The bytes of a place in line. There is a place for each change, and one that is unused.
    pub const RECORD: usize = Line::SIZE / (Changes::MOST + 1);
}

#[derive(Drop)]
pub struct Locks;

impl Locks {
    pub const AT: usize = 3136;

    pub const SIZE: usize = 16384;

    // The bytes of an entry, its readers and its writers; and of one of the two sets.
    pub const ENTRY: usize = Locks::SIZE / Entries::MOST;

    pub const SET: usize = Locks::ENTRY / 2;
}

#[derive(Drop)]
pub struct Permits;

impl Permits {
    pub const AT: usize = 19520;

    pub const SIZE: usize = 4096;

    pub const MOST: usize = 1024;

    // The bytes of a permit.
    pub const RECORD: usize = Permits::SIZE / Permits::MOST;
}

#[derive(Drop)]
pub struct Ties;

impl Ties {
    pub const AT: usize = 23616;

    pub const SIZE: usize = 2048;

    pub const MOST: usize = 512;

    // The bytes of a tie.
    pub const RECORD: usize = Ties::SIZE / Ties::MOST;
}

#[derive(Drop)]
pub struct Log;

impl Log {
    pub const AT: usize = 25664;

    pub const SIZE: usize = 12288;

    pub const MOST: usize = 2048;

    // The bytes of a record.
    pub const RECORD: usize = Log::SIZE / Log::MOST;
}

// The largest figures.
#[derive(Drop)]
pub struct Largest {
    pub entries: usize,
    pub changes: usize,
    pub records: usize,
    pub permits: usize,
    pub ties: usize,
}

// They are those of the rules.
pub fn most() -> Largest
    ensures { AreLargest result }
{
    Largest {
        entries: Entries::MOST,
        changes: Changes::MOST,
        records: Log::MOST,
        permits: Permits::MOST,
        ties: Ties::MOST,
    }
}

// A number for each section, in the order of the bytes.
#[derive(Drop)]
pub struct Sections {
    pub head: usize,
    pub values: usize,
    pub changes: usize,
    pub line: usize,
    pub locks: usize,
    pub permits: usize,
    pub ties: usize,
    pub log: usize,
}

// Where each section begins.
pub fn begins() -> Sections
    ensures { (result.head ≡ head_at) × (result.values ≡ values_at) × (result.changes ≡ changes_at) × (result.line ≡ line_at) × (result.locks ≡ locks_at) × (result.permits ≡ permits_at) × (result.ties ≡ ties_at) × (result.log ≡ log_at) }
{
    Sections {
        head: Header::AT,
        values: Entries::AT,
        changes: Changes::AT,
        line: Line::AT,
        locks: Locks::AT,
        permits: Permits::AT,
        ties: Ties::AT,
        log: Log::AT,
    }
}

// How many bytes it has.
pub fn sizes() -> Sections
    ensures { (result.head ≡ head_size) × (result.values ≡ values_size) × (result.changes ≡ changes_size) × (result.line ≡ line_size) × (result.locks ≡ locks_size) × (result.permits ≡ permits_size) × (result.ties ≡ ties_size) × (result.log ≡ log_size) }
{
    Sections {
        head: Header::SIZE,
        values: Entries::SIZE,
        changes: Changes::SIZE,
        line: Line::SIZE,
        locks: Locks::SIZE,
        permits: Permits::SIZE,
        ties: Ties::SIZE,
        log: Log::SIZE,
    }
}

// How many bytes a window has.
pub fn size() -> usize
    ensures { result ≡ window_size }
{
    Window::SIZE
}
