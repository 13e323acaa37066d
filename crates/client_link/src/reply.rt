//! Reading replies.
ghost use Rattle.std.specs.Prelude.{◌≡◌, ◌≤◌, length, vec_len, IfOk};
ghost use Rattle.client_link.specs.Faults.{fault_of_kind};

use client_core::{Answer, LinkFault};
use http1::Limits;
use http1::decode::{Decoded, Decoder};
use http1::fields::KnownFields;
use http1::framing::{MethodKind, response_framing};
use httparse::Status;
use httparse::spans::{EMPTY_HEADER_SPAN, HeaderSpan, parse_response};
use octets::Bytes;
use std::alloc::Global;
use std::io::{ErrorKind, Read};

/// The most bytes of a reply's head.
const MOST_OF_A_HEAD: usize = 16_384;

/// The most interim replies before a final one.
const MOST_INTERIM: u32 = 16;

/// How many bytes are read at a time.
const PORTION: usize = 65_536;

/// The replies of a connection: the bytes that came and weren't read as part of one.
#[derive(Drop)]
pub struct Replies {
    alloc: Global,
    input: Vec<u8>,
    /// Whether no byte came since the last request.
    silent: bool,
}

/// A reply whose head stands.
#[derive(Clone, Copy)]
struct Begun {
    status: u16,
    decoder: Decoder,
}

/// What became of the next piece of a body.
#[derive(Clone, Copy)]
enum Step {
    /// The body has ended.
    Ended,
    /// A piece was taken.
    Took,
    /// More has to be read.
    Wants,
}

impl Replies {
    /// Of a connection on which nothing came.
    pub fn new(alloc: Global) -> Self {
        Replies {
            alloc,
            input: Vec::new(alloc),
            silent: true,
        }
    }

    /// Whether no byte of the next reply came.
    pub fn is_silent(&self) -> bool {
        self.silent
    }

    /// A request is sent: what comes from now on is its reply.
    pub fn begin_next(&mut self) {
        self.silent = self.input.is_empty();
    }

    /// The next reply to a request other than HEAD, with a body of at most so many bytes. Interim replies are passed over.
    pub fn next<R: Read>(&mut self, reader: &mut R, most: u64) -> Result<Answer, LinkFault>
        ensures { IfOk result (λ answer. length answer.body ≤ most) }
    {
        let begun = self.begin(reader)?;
        let body = self.read_body(reader, begun.decoder, most)?;
        Ok(Answer {
            status: begun.status,
            body: Bytes::from_vec(body),
        })
    }

    /// Reads up to the end of a head.
    fn begin<R: Read>(&mut self, reader: &mut R) -> Result<Begun, LinkFault> {
        for _ in 0..MOST_INTERIM {
            let begun = self.read_head(reader)?;
            if begun.status >= 200 {
                return Ok(begun);
            }
        }
        Err(LinkFault::NotHttp)
    }

    /// Reads up to the end of a head, of an interim reply too.
    fn read_head<R: Read>(&mut self, reader: &mut R) -> Result<Begun, LinkFault> {
        for _ in 0..u64::MAX {
            if let Some(begun) = self.take_head()? {
                return Ok(begun);
            }
            self.read_more(reader)?;
        }
        Err(LinkFault::NotHttp)
    }

    /// The head that stands at the front, which is dropped.
    fn take_head(&mut self) -> Result<Option<Begun>, LinkFault> {
        let mut fields = [EMPTY_HEADER_SPAN; 64];
        match parse_response(&self.input, &mut fields) {
            Ok(Status::Complete(head)) => {
                let known = KnownFields::from_spans(&self.input, &fields[..head.headers]);
                let framing = response_framing(MethodKind::Other, head.code, head.version, &known);
                let Ok(framing) = framing else {
                    return Err(LinkFault::NotHttp);
                };
                let decoder = Decoder::new(framing, &Limits::default());
                self.drop_front(head.len);
                Ok(Some(Begun {
                    status: head.code,
                    decoder,
                }))
            }
            Ok(Status::Partial) if self.input.len() < MOST_OF_A_HEAD => Ok(None),
            _ => Err(LinkFault::NotHttp),
        }
    }

    /// Reads a body.
    fn read_body<R: Read>(
        &mut self,
        reader: &mut R,
        mut decoder: Decoder,
        most: u64,
    ) -> Result<Vec<u8>, LinkFault>
        ensures { IfOk result (λ body. vec_len body ≤ most) }
    {
        let mut body = Vec::new(self.alloc);
        for _ in 0..u64::MAX {
            let step = self.take_piece(&mut decoder, &mut body)?;
            if body.len() as u64 > most {
                return Err(LinkFault::TooLong);
            }
            match step {
                Step::Ended => return Ok(body),
                Step::Took => {}
                Step::Wants => {
                    if !self.read_some(reader)? {
                        // a body that goes on until the connection ends is whole now
                        return match decoder {
                            Decoder::UntilClose => Ok(body),
                            _ => Err(LinkFault::Broken),
                        };
                    }
                }
            }
        }
        Err(LinkFault::NotHttp)
    }

    /// Takes the next piece of a body.
    fn take_piece(&mut self, decoder: &mut Decoder, body: &mut Vec<u8>) -> Result<Step, LinkFault> {
        let mut trailers = [EMPTY_HEADER_SPAN; 16];
        match decoder.decode(&self.input, &mut trailers) {
            Ok(Decoded::NeedMore(used)) => {
                self.drop_front(used);
                Ok(Step::Wants)
            }
            Ok(Decoded::Data(piece)) => {
                if body.extend_from_slice(piece.of(&self.input)).is_err() {
                    return Err(LinkFault::NoMemory);
                }
                self.drop_front(piece.end);
                Ok(Step::Took)
            }
            Ok(Decoded::End { len, .. }) => {
                self.drop_front(len);
                Ok(Step::Ended)
            }
            Err(_) => Err(LinkFault::NotHttp),
        }
    }

    /// Drops the first bytes, which were read.
    fn drop_front(&mut self, count: usize) {
        let left = self.input.len().saturating_sub(count);
        self.input.copy_within(count.min(self.input.len()).., 0);
        self.input.truncate(left);
    }

    /// Reads more; an end is a fault.
    fn read_more<R: Read>(&mut self, reader: &mut R) -> Result<(), LinkFault> {
        if self.read_some(reader)? {
            Ok(())
        } else {
            Err(LinkFault::Broken)
        }
    }

    /// Reads more, and says whether something came.
    fn read_some<R: Read>(&mut self, reader: &mut R) -> Result<bool, LinkFault> {
        let before = self.input.len();
        if self.input.resize(before + PORTION, 0).is_err() {
            return Err(LinkFault::NoMemory);
        }
        let mut fault = LinkFault::Broken;
        for _ in 0..u64::MAX {
            match reader.read(&mut self.input[before..]) {
                Ok(count) => {
                    self.input.truncate(before + count);
                    self.silent = self.silent && count == 0;
                    return Ok(count > 0);
                }
                Err(error) => {
                    if error.kind() != ErrorKind::Interrupted {
                        fault = fault_of(error.kind());
                        break;
                    }
                }
            }
        }
        self.input.truncate(before);
        Err(fault)
    }
}

/// The fault where a read fails: `TooSlow` where its time is over, as a socket tells it by either kind, and else `Broken`.
fn fault_of(kind: ErrorKind) -> LinkFault
    ensures { result ≡ fault_of_kind kind }
{
    match kind {
        ErrorKind::TimedOut => LinkFault::TooSlow,
        ErrorKind::WouldBlock => LinkFault::TooSlow,
        _ => LinkFault::Broken,
    }
}
