// Binary HTTP anew as Binary, and into HTTP/1.1.
ghost use Rattle.std.specs.Prelude.{◌≤◌, length};
ghost use Rattle.messages.specs.Room.{section_room, heads_room, informational_room, chunks_room};
ghost use Rattle.output.specs.Reply.{Served};
ghost use Rattle.turn.specs.Turn.{binary_to_binary, binary_to_http1};
ghost use Rattle.turning.specs.Behind.{read_to_http1};

use binary_reader::whole::binary_in;
use messages::call::is_edition;
use messages::parts::is_scheme;
use messages::{Stop, Told};
use octets::{ClassTable, Refusal, Refused};
use output::Written;

// The message anew, through working space for the ranges.
fn turn_anew(
    t: &ClassTable,
    input: &[u8],
    told: Told,
    out: &mut [u8],
    headers: &mut [u32],
    heads: &mut [u32],
    chunks: &mut [u32],
    trailers: &mut [u32],
) -> Written
    requires { (heads_room ≤ length headers.old)
        × (informational_room ≤ length heads.old) × (chunks_room ≤ length chunks.old) × (section_room ≤ length trailers.old) }
    ensures { Served (binary_to_binary told input.now) out.old out.new result }
{
    let o = binary_in(t, input, told, headers, heads, chunks, trailers);
    match o {
        Err(Stop::More) => return Err(Refusal::MoreNeeded.at(input.len())),
        Err(Stop::Refused(refused)) => return Err(refused),
        Ok(r) => return binary_writer::write_message(
            input, r, headers, heads, chunks, trailers, out,
        ),
    }
}

// A Binary message, as told, written anew as Binary.
pub fn binary_to_binary(input: &[u8], told: Told, out: &mut [u8]) -> Written
    ensures { Served (binary_to_binary told input.now) out.old out.new result }
{
    let t = ClassTable::new();
    let mut headers = [0u32; 1280];
    let mut heads = [0u32; 8];
    let mut chunks = [0u32; 512];
    let mut trailers = [0u32; 256];
    turn_anew(
        &t,
        input,
        told,
        out,
        &mut headers,
        &mut heads,
        &mut chunks,
        &mut trailers,
    )
}

// The message, as told, as HTTP/1.1 on a connection of the scheme told, through working space for the ranges.
fn turn_http1(
    t: &ClassTable,
    input: &[u8],
    told: Told,
    out: &mut [u8],
    headers: &mut [u32],
    heads: &mut [u32],
    chunks: &mut [u32],
    trailers: &mut [u32],
) -> Written
    requires { (heads_room ≤ length headers.old)
        × (informational_room ≤ length heads.old) × (chunks_room ≤ length chunks.old) × (section_room ≤ length trailers.old) }
    ensures { Served (read_to_http1 told input.now) out.old out.new result }
{
    let o = binary_in(t, input, told, headers, heads, chunks, trailers);
    match o {
        Err(Stop::More) => return Err(Refusal::MoreNeeded.at(input.len())),
        Err(Stop::Refused(refused)) => return Err(refused),
        Ok(r) => return http1_writer::write_message(
            input, told, r, headers, heads, chunks, trailers, out,
        ),
    }
}

// A Binary message, as told, as HTTP/1.1 on a connection of the scheme told.
pub fn binary_to_http1(input: &[u8], told: Told, out: &mut [u8]) -> Written
    ensures { Served (binary_to_http1 told input.now) out.old out.new result }
{
    if is_edition(told.edition) {
        if is_scheme(told.scheme) {
            let t = ClassTable::new();
            let mut headers = [0u32; 1280];
            let mut heads = [0u32; 8];
            let mut chunks = [0u32; 512];
            let mut trailers = [0u32; 256];
            return turn_http1(
                &t,
                input,
                told,
                out,
                &mut headers,
                &mut heads,
                &mut chunks,
                &mut trailers,
            );
        }
        return Err(Refusal::NotSupported.at(0));
    }
    Err(Refusal::BadEdition.at(0))
}
