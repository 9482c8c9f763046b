// One record, as the document has it: the plain form, at the edges and in specs/. A ring stores its records as words (cells.rt).
ghost use Rattle.std.specs.Prelude.{◌≡◌};
ghost use Rattle.descriptors.specs.Record.{is_cpu, is_in};

// The most records that a ring has.
pub const LIMIT: usize = 64;

// The most bytes that a record covers.
pub const MOST: usize = 4095;

// One past the last address.
pub const TOP: usize = 4294967296;

#[derive(Clone, Copy, Debug, PartialEq, Eq)]
pub enum Owner {
    Cpu,
    Dma,
}

impl Owner {
    pub fn is_cpu(self) -> bool
        ensures { result ≡ is_cpu self }
    {
        self == Owner::Cpu
    }
}

// The next is a record's number, or none.
#[derive(Clone, Copy, Debug, PartialEq, Eq)]
pub struct DmaDescriptor {
    pub buffer: u32,
    pub size: u16,
    pub length: u16,
    pub suc_eof: bool,
    pub owner: Owner,
    pub next: Option<u16>,
}

// The direction of the DMA transfer: In is receive, Out is transmit.
#[derive(Clone, Copy, Debug, PartialEq, Eq)]
pub enum TransferDirection {
    In,
    Out,
}

impl TransferDirection {
    pub fn is_in(self) -> bool
        ensures { result ≡ is_in self }
    {
        self == TransferDirection::In
    }
}
