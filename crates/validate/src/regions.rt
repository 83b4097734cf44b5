// The map of the work buffer: where its regions begin. docs/ARCHITECTURE.md has the page.
ghost use Rattle.std.specs.Prelude.{◌≡◌, ◌*◌, ◌^◌, ◌<◌};
ghost use Rattle.validate.specs.Regions.{regions_of};

// The list of the items' places, the items, and the records of the texts.
#[derive(Clone, Copy)]
pub struct Regions {
    pub list: usize,
    pub items: usize,
    pub records: usize,
}

// The 48 bytes before it hold nothing.
pub const LIST: usize = 48;

// n is the number of bytes that the tape's items have.
pub fn layout(n: usize) -> Regions
    requires { 8 * n < 2 ^ 64 }
    ensures { result ≡ regions_of n }
{
    Regions {
        list: LIST,
        items: 7 * n,
        records: 8 * n,
    }
}
