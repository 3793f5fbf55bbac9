// Where a line ends, and the bytes of one that has not ended.
ghost use Rattle.std.specs.Prelude.{◌≡◌, ◌==◌, ◌≤◌, ◌++◌, length, take};
ghost use Rattle.std.specs.List.{position};
ghost use Rattle.lines.specs.Memory.{kept};
ghost use Rattle.output_lines.specs.Text.{newline};
ghost use Rattle.stream.specs.Inner.Found.{FoundFirst, newline_among};
ghost use Rattle.stream.specs.Inner.Held.{Holds};

const NEWLINE: u8 = b'\n';

// As many bytes of an unfinished line are held: one more than a line may have, so that a longer one is known.
const MOST: usize = 513;

// Whether a newline is among sixteen bytes. None of them ends the fold, so that they are looked at together.
fn newline_near(sixteen: &[u8; 16]) -> bool
    ensures { result ≡ newline_among sixteen.now }
{
    sixteen
        .iter()
        .fold(false, |near, byte| near | (*byte == NEWLINE))
}

// The first sixteen bytes with a newline among them.
fn first_near(sixteens: &[[u8; 16]]) -> Option<usize>
    ensures { result ≡ position newline_among sixteens.now }
{
    sixteens.iter().position(|sixteen| newline_near(sixteen))
}

// The first newline.
fn first_newline(bytes: &[u8]) -> Option<usize>
    ensures { result ≡ position (λ b. b == newline) bytes.now }
{
    bytes.iter().position(|byte| *byte == NEWLINE)
}

// Where the first newline stands, from the given place on. Sixteen bytes at a time are passed over, up to where it is near.
pub fn find_newline(block: &[u8], from: usize) -> Option<usize>
    requires { from ≤ length block.now }
    ensures { FoundFirst block.now from result }
{
    let (sixteens, _) = block[from..].as_chunks::<16>();
    let near = from + 16 * first_near(sixteens).unwrap_or(sixteens.len());
    let after = first_newline(&block[near..])?;
    Some(near + after)
}

// Adds a piece of a line to the bytes that are held, as far as there is room, and gives their number.
pub fn hold(line: &mut [u8], held: usize, piece: &[u8]) -> usize
    requires { (held ≤ 513) × (length line.old ≡ 513) }
    ensures { Holds line.old held piece.now result line.new }
{
    let count = (MOST - held).min(piece.len());
    line[held..held + count].copy_from_slice(&piece[..count]);
    held + count
}

// The line that ends with a piece. Where nothing is held the piece is the whole line, and is not copied.
pub fn whole<'a>(line: &'a mut [u8], held: usize, piece: &'a [u8]) -> &'a [u8]
    requires { (held ≤ 513) × (length line.old ≡ 513) }
    ensures { kept result.now ≡ kept (take held line.old ++ piece.now) }
{
    if held == 0 {
        return piece;
    }
    let held = hold(line, held, piece);
    &line[..held]
}
