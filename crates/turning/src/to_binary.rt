// HTTP/1.1 into Binary HTTP.
ghost use Rattle.std.specs.Prelude.{◌≡◌, ◌≤◌, length};
ghost use Rattle.messages.specs.Room.{section_room, heads_room, informational_room, chunks_room};
ghost use Rattle.http1_lines.specs.Read.{read_request, read_response};
ghost use Rattle.turn.specs.Turn.{TakenServed, request_to_binary, response_to_binary};
ghost use Rattle.turning.specs.Behind.{taken_by};

use binary_writer::write_message;
use http1_reader::request::request_in;
use http1_reader::response::response_in;
use messages::{Stop, Told};
use octets::{ClassTable, Refusal, Refused};
use output::Written;

// How many octets a turning took that was answered so, of a message of a length: none where it was refused.
fn taken_by(w: Written, length: usize) -> usize
    ensures { result ≡ taken_by w length }
{
    match w {
        Ok(_) => length,
        Err(_) => 0,
    }
}

// The same through working space for the ranges.
fn turn_request(
    t: &ClassTable,
    input: &[u8],
    told: Told,
    out: &mut [u8],
    taken: &mut usize,
    headers: &mut [u32],
    chunks: &mut [u32],
    trailers: &mut [u32],
) -> Written
    requires { (section_room ≤ length headers.old)
        × (chunks_room ≤ length chunks.old) × (section_room ≤ length trailers.old) }
    ensures { TakenServed (read_request told input.now) (request_to_binary told input.now)
        out.old out.new taken.new result }
{
    let o = request_in(t, input, told, headers, chunks, trailers);
    match o {
        Err(Stop::More) => {
            *taken = 0;
            return Err(Refusal::MoreNeeded.at(input.len()));
        }
        Err(Stop::Refused(refused)) => {
            *taken = 0;
            return Err(refused);
        }
        Ok(r) => {
            let none = [0u32; 8];
            let w = write_message(input, r, headers, &none, chunks, trailers, out);
            *taken = taken_by(w, r.length);
            return w;
        }
    }
}

// The first HTTP/1.1 request of the input, under the scheme told, as Binary; `taken` receives how many octets of the input it is, or 0.
pub fn request_to_binary(input: &[u8], told: Told, out: &mut [u8], taken: &mut usize) -> Written
    ensures { TakenServed (read_request told input.now) (request_to_binary told input.now)
        out.old out.new taken.new result }
{
    let t = ClassTable::new();
    let mut headers = [0u32; 256];
    let mut chunks = [0u32; 512];
    let mut trailers = [0u32; 256];
    turn_request(
        &t,
        input,
        told,
        out,
        taken,
        &mut headers,
        &mut chunks,
        &mut trailers,
    )
}

// The same through working space for the ranges.
fn turn_response(
    t: &ClassTable,
    input: &[u8],
    told: Told,
    out: &mut [u8],
    taken: &mut usize,
    headers: &mut [u32],
    heads: &mut [u32],
    chunks: &mut [u32],
    trailers: &mut [u32],
) -> Written
    requires { (heads_room ≤ length headers.old)
        × (informational_room ≤ length heads.old) × (chunks_room ≤ length chunks.old) × (section_room ≤ length trailers.old) }
    ensures { TakenServed (read_response told input.now) (response_to_binary told input.now)
        out.old out.new taken.new result }
{
    let o = response_in(t, input, told, headers, heads, chunks, trailers);
    match o {
        Err(Stop::More) => {
            *taken = 0;
            return Err(Refusal::MoreNeeded.at(input.len()));
        }
        Err(Stop::Refused(refused)) => {
            *taken = 0;
            return Err(refused);
        }
        Ok(r) => {
            let w = write_message(input, r, headers, heads, chunks, trailers, out);
            *taken = taken_by(w, r.length);
            return w;
        }
    }
}

// The first HTTP/1.1 response of the input, as told, as Binary; `taken` receives how many octets of the input it is, or 0.
pub fn response_to_binary(input: &[u8], told: Told, out: &mut [u8], taken: &mut usize) -> Written
    ensures { TakenServed (read_response told input.now) (response_to_binary told input.now)
        out.old out.new taken.new result }
{
    let t = ClassTable::new();
    let mut headers = [0u32; 1280];
    let mut heads = [0u32; 8];
    let mut chunks = [0u32; 512];
    let mut trailers = [0u32; 256];
    turn_response(
        &t,
        input,
        told,
        out,
        taken,
        &mut headers,
        &mut heads,
        &mut chunks,
        &mut trailers,
    )
}
