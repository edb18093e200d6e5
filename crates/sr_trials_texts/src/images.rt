//! Images of what a client holds: each reason to refuse bytes at its place, and images that were changed at random.
ghost use Rattle.std.specs.Prelude.{◌<◌};

use sr_cell::list::{Bytes, No, NoMemory, Seq};
use sr_cell::schema::Schema;
use sr_cell::table::{Column, Kind, Table};
use sr_cell::text::Text;
use sr_image::image::ImageFault;
use sr_image::read::read_image;
use std::alloc::Global;
use std::test::Fail;

/// The image of nothing, over a schema without tables.
const NOTHING: &[u8; 29] = b"SRIMAGE1\0\0\0\0\0\0\0\x1d\0\0\0\0\0\0\0\0\0\0\0\0\0";

/// At version 2, of emp the columns id and age from 30 to 40, with two rows.
const THIRTIES: &[u8; 147] =
    b"SRIMAGE1\0\0\0\0\0\0\0\x93\x01\0\0\0\x2eCREATE TABLE emp (id INT PRIMARY KEY, age INT)\0\0\0\0\0\0\0\x02\0\0\0\x01\0\0\x03\0\0\0\x01\x02\0\x01\0\0\0\0\0\0\0\x1e\0\0\0\0\0\0\0\x28\0\0\0\x02\x02\0\0\0\0\0\0\0\0\x01\0\0\0\0\0\0\0\0\x1e\x02\0\0\0\0\0\0\0\0\x03\0\0\0\0\0\0\0\0\x23";

/// The same with a part before it: each id of emp, with one row.
const TWO: &[u8; 171] =
    b"SRIMAGE1\0\0\0\0\0\0\0\xab\x01\0\0\0\x2eCREATE TABLE emp (id INT PRIMARY KEY, age INT)\0\0\0\0\0\0\0\x02\0\0\0\x02\0\0\x01\0\0\0\x01\x02\0\0\0\0\0\x01\x01\0\0\0\0\0\0\0\0\x01\0\0\x03\0\0\0\x01\x02\0\x01\0\0\0\0\0\0\0\x1e\0\0\0\0\0\0\0\x28\0\0\0\x02\x02\0\0\0\0\0\0\0\0\x01\0\0\0\0\0\0\0\0\x1e\x02\0\0\0\0\0\0\0\0\x03\0\0\0\0\0\0\0\0\x23";

fn number_column(alloc: Global, name: &str) -> Result<Column, NoMemory> {
    Ok(Column {
        name: Text::of(alloc, name)?,
        kind: Kind::Num,
        lo: -1_099_511_627_776,
        hi: 1_099_511_627_775,
        nullable: false,
    })
}

/// A table of whole numbers, whose key is id.
fn emp(alloc: Global) -> Result<Table, NoMemory> {
    let mut columns = Seq::new(alloc);
    columns.push(number_column(alloc, "id")?)?;
    columns.push(number_column(alloc, "age")?)?;
    Ok(Table {
        name: Text::of(alloc, "emp")?,
        columns,
        key: 0,
    })
}

/// The schema of that table alone.
fn schema(alloc: Global) -> Result<Schema, NoMemory> {
    let mut schema = Schema::new(alloc);
    let table = emp(alloc)?;
    match schema.add(alloc, table) {
        Ok(()) => Ok(schema),
        Err(_) => Err(NoMemory),
    }
}

/// Why the bytes are no image, if they are none.
fn fault_of(alloc: Global, schema: &Schema, bytes: &[u8]) -> Result<Option<ImageFault>, NoMemory> {
    match read_image(alloc, schema, bytes) {
        Ok(_) => Ok(None),
        Err(No::Refused(fault)) => Ok(Some(fault)),
        Err(No::NoMemory) => Err(NoMemory),
    }
}

#[test]
fn the_image_of_nothing_is_its_bytes(rt: HostRuntime) -> Result<(), Fail> {
    let alloc = rt.alloc();
    let schema = Schema::new(alloc);
    let whole = fault_of(alloc, &schema, NOTHING)?;
    assert!(rt; whole == None);
    for end in 0..29 {
        let short = fault_of(alloc, &schema, &NOTHING[..end])?;
        assert!(rt; short == Some(ImageFault::Short), "{end} bytes");
    }
    let mut more = Bytes::new(alloc);
    more.extend(NOTHING)?;
    more.push(0)?;
    let left = fault_of(alloc, &schema, more.as_slice())?;
    assert!(rt; left == Some(ImageFault::Left));
    Ok(())
}

/// The bytes with another one at that place.
fn with_byte(alloc: Global, bytes: &[u8], place: usize, byte: u8) -> Result<Bytes, NoMemory> {
    let mut other = Bytes::new(alloc);
    other.extend(bytes)?;
    if place < other.len() {
        other.replace(place, byte);
    }
    Ok(other)
}

// Which byte becomes what, and why it is no image then.
static EDITS: [(usize, u8, ImageFault); 37] = [
    (0, b'X', ImageFault::Magic),
    (7, b'2', ImageFault::Magic),
    (15, 0x94, ImageFault::Short),
    (8, 0x80, ImageFault::Short),
    (15, 0x1c, ImageFault::Field { place: 8 }),
    (15, 0x92, ImageFault::Left),
    (16, 17, ImageFault::Field { place: 16 }),
    (16, 0, ImageFault::Schema),
    (17, 0x7f, ImageFault::Field { place: 21 }),
    (20, 0x2d, ImageFault::Schema),
    (21, b'c', ImageFault::Schema),
    (77, 4, ImageFault::Field { place: 75 }),
    (78, 2, ImageFault::Field { place: 147 }),
    (78, 0, ImageFault::Field { place: 79 }),
    (79, 1, ImageFault::Field { place: 79 }),
    (80, 0x10, ImageFault::Field { place: 80 }),
    (81, 7, ImageFault::Field { place: 79 }),
    (81, 2, ImageFault::Field { place: 79 }),
    (85, 0, ImageFault::Field { place: 82 }),
    (84, 0x40, ImageFault::Field { place: 82 }),
    (86, 1, ImageFault::Field { place: 86 }),
    (86, 13, ImageFault::Field { place: 86 }),
    (87, 5, ImageFault::Field { place: 87 }),
    (89, 0x7f, ImageFault::Field { place: 97 }),
    (104, 29, ImageFault::Field { place: 97 }),
    (97, 0x7f, ImageFault::Field { place: 86 }),
    (81, 1, ImageFault::Field { place: 86 }),
    (106, 4, ImageFault::Field { place: 105 }),
    (108, 3, ImageFault::Field { place: 147 }),
    (108, 1, ImageFault::Field { place: 128 }),
    (109, 1, ImageFault::Field { place: 109 }),
    (110, 3, ImageFault::Field { place: 110 }),
    (127, 41, ImageFault::Field { place: 109 }),
    (127, 29, ImageFault::Field { place: 109 }),
    (137, 1, ImageFault::Field { place: 128 }),
    (137, 0, ImageFault::Field { place: 128 }),
    (146, 41, ImageFault::Field { place: 128 }),
];

#[test]
fn a_fault_of_an_image_stands_at_its_place(rt: HostRuntime) -> Result<(), Fail> {
    let alloc = rt.alloc();
    let schema = schema(alloc)?;
    let whole = fault_of(alloc, &schema, THIRTIES)?;
    assert!(rt; whole == None);
    for (place, byte, fault) in &EDITS {
        let bytes = with_byte(alloc, THIRTIES, *place, *byte)?;
        let found = fault_of(alloc, &schema, bytes.as_slice())?;
        assert!(rt; found == Some(*fault), "{byte} at {place}: {found:?}");
    }
    Ok(())
}

// Where the fields and parts of the image of two parts begin.
static PIECES: [usize; 7] = [0, 8, 16, 67, 79, 103, 171];

/// The next of a row of numbers that seem to be without order.
fn after(number: u64) -> u64 {
    number
        .wrapping_mul(6_364_136_223_846_793_005)
        .wrapping_add(1_442_695_040_888_963_407)
}

/// A number below that one.
fn below(number: u64, limit: usize) -> usize
    requires { 0 < limit }
    ensures { result < limit }
{
    (number >> 33) as usize % limit
}

/// The image of two parts with some bits turned.
fn turned(alloc: Global, number: u64) -> Result<Bytes, NoMemory> {
    let mut bytes = Bytes::new(alloc);
    bytes.extend(TWO)?;
    let mut seed = number;
    for _ in 0..below(number, 3) + 1 {
        seed = after(seed);
        let place = below(seed, 171);
        if let Some(byte) = bytes.get(place) {
            let other = *byte ^ (1u8 << (seed >> 60) % 8);
            if place < bytes.len() {
                bytes.replace(place, other);
            }
        }
    }
    Ok(bytes)
}

/// The image of two parts, with three pieces in a row of which the last two change places.
fn exchanged(alloc: Global, number: u64) -> Result<Bytes, NoMemory> {
    let first = below(number, 5);
    let second = first + 1 + below(after(number), 5 - first);
    let mut bytes = Bytes::new(alloc);
    bytes.extend(piece(0, first))?;
    bytes.extend(piece(second, second + 1))?;
    bytes.extend(piece(first, second))?;
    bytes.extend(piece(second + 1, 6))?;
    Ok(bytes)
}

/// The pieces from one to before another.
fn piece(from: usize, to: usize) -> &'static [u8] {
    let all: &'static [u8] = TWO;
    match (PIECES.get(from), PIECES.get(to)) {
        (Some(start), Some(end)) if *start <= *end && *end <= all.len() => &all[*start..*end],
        _ => b"",
    }
}

/// The image of two parts, changed in one of five ways.
fn changed(alloc: Global, number: u64) -> Result<Bytes, NoMemory> {
    let next = after(number);
    match below(number, 5) {
        0 => exchanged(alloc, next),
        1 => with_byte(alloc, TWO, 15, (next >> 56) as u8),
        2 => {
            let mut bytes = turned(alloc, next)?;
            bytes.truncate(below(next, 171));
            Ok(bytes)
        }
        3 => with_byte(alloc, TWO, below(next, 171), (next >> 56) as u8),
        _ => turned(alloc, next),
    }
}

/// How many of so many changed images are images still.
fn count_images(alloc: Global, count: usize) -> Result<usize, NoMemory> {
    let schema = schema(alloc)?;
    let mut number = 1;
    let mut images = 0usize;
    for _ in 0..count {
        number = after(number);
        let bytes = changed(alloc, number)?;
        if fault_of(alloc, &schema, bytes.as_slice())? == None {
            images = images.saturating_add(1);
        }
    }
    Ok(images)
}

#[test]
fn changed_images_are_refused_or_are_images(rt: HostRuntime) -> Result<(), Fail> {
    let images = count_images(rt.alloc(), 100_000)?;
    assert!(rt; 1_000 < images && images < 50_000, "{images}");
    Ok(())
}
