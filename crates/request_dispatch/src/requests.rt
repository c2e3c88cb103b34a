ghost use Rattle.std.specs.Prelude.{◌≡◌, [], false, OnOk, length, map, find, nat_eq, nat_lt};
ghost use Rattle.std.specs.Option.{option_copied, option_map_or};
ghost use Rattle.std.specs.List.{position_from};
ghost use Rattle.route_events.specs.Connections.{is_one_of};
ghost use Rattle.request_dispatch.specs.RequestTable.{request_among, is_sent_on, request_on, without_all, arrived, tried_more, tried_after, out_tried_after, after_end, lost, placed, waits_again, sent_back};
ghost use Rattle.request_dispatch.specs.StepStates.{still_waiting, sent_request};

use crate::outstanding::Outstanding;
use crate::waiting::Waiting;
use alt_base::{Duplicate, ListOf, NoMemory};
use origin_values::{Origin, same_origin};
use route_events::{Request, Route, Routes};
use std::alloc::Global;
use std::marker::Model;
use std::mem;

/// The requests that wait, in the order of their arrival, and those that are outstanding, in the order of their sends,
/// each with the routes that were tried since it arrived.
#[derive(Debug, Drop)]
pub struct Requests {
    waiting: Vec<Waiting>,
    outstanding: Vec<Outstanding>,
}

impl Model for Requests {
    ghost use Rattle.request_dispatch.specs.RequestTable.{RequestTable};

    ghost Value = { RequestTable };

    ghost view = { λ requests. record { waiting = requests.waiting.items; outstanding = requests.outstanding.items } };
}

impl Requests {
    /// No requests. It takes no memory.
    pub fn new(alloc: Global) -> Requests
        ensures { result ≡ record { waiting = []; outstanding = [] } }
    {
        Requests {
            waiting: Vec::new(alloc),
            outstanding: Vec::new(alloc),
        }
    }

    /// How many wait. It takes no memory.
    pub fn waiting_len(&self) -> usize
        ensures { result ≡ length self.now.waiting }
    {
        self.waiting.len()
    }

    /// The outstanding request of a number; None exactly where none has it. It takes no memory.
    pub fn of_number(&self, number: u32) -> Option<&Outstanding>
        ensures { option_copied result ≡ request_among self.now.outstanding number }
    {
        request_among(self.outstanding.as_slice(), number)
    }

    /// Of the requests of these numbers, the outstanding one that was sent on a stream; None exactly where none was. It takes
    /// no memory.
    pub fn on_stream(&self, stream: u32, numbers: &[u32]) -> Option<&Outstanding>
        ensures { option_copied result ≡ request_on self.now.outstanding stream numbers.now }
    {
        request_on(self.outstanding.as_slice(), stream, numbers)
    }

    /// A request arrives, and waits behind the others. NoMemory comes only where memory isn't found.
    pub fn arrive(&mut self, alloc: Global, number: u32, origin: Origin) -> Result<(), NoMemory>
        ensures { OnOk result (self.new ≡ arrived number origin self.old) }
    {
        self.waiting.push(Waiting {
            request: Request { number, origin },
            tried: ListOf::new(alloc),
        })?;
        Ok(())
    }

    /// An attempt for an origin by a route has ended: each request of the origin has tried it. NoMemory comes only where
    /// memory isn't found.
    pub fn note_end(
        &mut self,
        alloc: Global,
        origin: &Origin,
        route: &Route,
    ) -> Result<(), NoMemory>
        ensures { OnOk result (self.new ≡ after_end origin.now route.now self.old) }
    {
        note_waiting(alloc, &mut self.waiting, origin, route)?;
        note_outstanding(alloc, &mut self.outstanding, origin, route)
    }

    /// The requests of these numbers aren't outstanding any more: they are lost or answered. It takes no memory.
    pub fn lose(&mut self, numbers: &[u32])
        ensures { self.new ≡ lost numbers.now self.old }
    {
        drop_requests(&mut self.outstanding, numbers);
    }

    /// The outstanding request of a number, if there is one, waits again, where it waited before: the order of arrival is
    /// the order of numbers. It keeps what was tried. NoMemory comes only where memory isn't found.
    pub fn send_back(&mut self, alloc: Global, number: u32) -> Result<(), NoMemory>
        ensures { OnOk result (self.new ≡ sent_back number self.old) }
    {
        let found = request_among(self.outstanding.as_slice(), number);
        wait_again(alloc, found, &mut self.waiting)?;
        drop_requests(&mut self.outstanding, &[number]);
        Ok(())
    }

    /// Takes the requests that wait, in order; none waits any more. It takes no memory.
    pub fn take_waiting(&mut self, alloc: Global) -> ListOf<Waiting>
        ensures taken { result ≡ self.old.waiting }
        ensures left { self.new ≡ record { waiting = []; outstanding = self.old.outstanding } }
    {
        ListOf::from_vec(mem::replace(&mut self.waiting, Vec::new(alloc)))
    }

    /// A request that was taken waits on, behind the others. NoMemory comes only where memory isn't found.
    pub fn push_waiting(&mut self, waiting: Waiting) -> Result<(), NoMemory>
        ensures { OnOk result (self.new ≡ still_waiting waiting self.old) }
    {
        self.waiting.push(waiting)?;
        Ok(())
    }

    /// A request that was taken was sent, on the stream of a connection. NoMemory comes only where memory isn't found.
    pub fn push_sent(
        &mut self,
        waiting: Waiting,
        conn: u64,
        stream: Option<u32>,
    ) -> Result<(), NoMemory>
        ensures { OnOk result (self.new ≡ sent_request waiting conn stream self.old) }
    {
        self.outstanding.push(Outstanding {
            request: waiting.request,
            conn,
            stream,
            tried: waiting.tried,
        })?;
        Ok(())
    }
}

fn request_among(outstanding: &[Outstanding], number: u32) -> Option<&Outstanding>
    ensures { option_copied result ≡ request_among outstanding.now number }
{
    outstanding
        .iter()
        .find(|sent| sent.request.number == number)
}

fn is_on(sent: &Outstanding, stream: u32) -> bool
    ensures { result ≡ option_map_or (nat_eq stream) sent.now.stream false }
{
    match sent.stream {
        None => false,
        Some(own) => stream == own,
    }
}

fn is_sent_on(outstanding: &[Outstanding], stream: u32, number: u32) -> bool
    ensures { result ≡ is_sent_on outstanding.now stream number }
{
    match request_among(outstanding, number) {
        None => false,
        Some(sent) => is_on(sent, stream),
    }
}

fn number_on<'a>(outstanding: &[Outstanding], stream: u32, numbers: &'a [u32]) -> Option<&'a u32>
    ensures { option_copied result ≡ find (is_sent_on outstanding.now stream) numbers.now }
{
    numbers
        .iter()
        .find(|number| is_sent_on(outstanding, stream, **number))
}

fn request_on<'a>(
    outstanding: &'a [Outstanding],
    stream: u32,
    numbers: &[u32],
) -> Option<&'a Outstanding>
    ensures { option_copied result ≡ request_on outstanding.now stream numbers.now }
{
    match number_on(outstanding, stream, numbers) {
        None => None,
        Some(number) => request_among(outstanding, *number),
    }
}

/// Whether a request is one of those of these numbers.
pub(crate) fn is_one_of(number: u32, numbers: &[u32]) -> bool
    ensures { result ≡ is_one_of number numbers.now }
{
    numbers.iter().any(|n| number == *n)
}

fn drop_requests(outstanding: &mut Vec<Outstanding>, numbers: &[u32])
    ensures { outstanding.new.items ≡ without_all numbers.now outstanding.old.items }
{
    outstanding.retain(|sent| !is_one_of(sent.request.number, numbers));
}

// The place of the first that waits and has a greater number.
fn place_above(waiting: &[Waiting], number: u32) -> Option<usize>
    ensures { result ≡ position_from (λ w. nat_lt number w.request.number) 0 waiting.now }
{
    waiting
        .iter()
        .position(|other| number < other.request.number)
}

// A request takes its place among those that wait.
fn put_in_place(waiting: &mut Vec<Waiting>, request: Waiting) -> Result<(), NoMemory>
    ensures { OnOk result (waiting.new.items ≡ placed request waiting.old.items) }
{
    match place_above(waiting.as_slice(), request.request.number) {
        None => waiting.push(request)?,
        Some(place) => waiting.insert(place, request)?,
    }
    Ok(())
}

// An outstanding request waits again.
fn wait_again(
    alloc: Global,
    outstanding: Option<&Outstanding>,
    waiting: &mut Vec<Waiting>,
) -> Result<(), NoMemory>
    ensures { OnOk result (waiting.new.items ≡ waits_again (option_copied outstanding.entry) waiting.old.items) }
{
    match outstanding {
        None => Ok(()),
        Some(sent) => put_in_place(
            waiting,
            Waiting {
                request: sent.request.copy(alloc)?,
                tried: sent.tried.copy(alloc)?,
            },
        ),
    }
}

// A request has tried a route, where it is one of the origin.
fn add_tried(
    alloc: Global,
    tried: &mut Routes,
    request: &Request,
    origin: &Origin,
    route: &Route,
) -> Result<(), NoMemory>
    ensures { OnOk result (tried.new ≡ tried_more origin.now route.now request.now tried.old) }
{
    if same_origin(origin, &request.origin) {
        tried.push(route.copy(alloc)?)?;
    }
    Ok(())
}

fn note_tried(
    alloc: Global,
    waiting: &mut Waiting,
    origin: &Origin,
    route: &Route,
) -> Result<(), NoMemory>
    ensures { OnOk result (waiting.new ≡ tried_after origin.now route.now waiting.old) }
{
    add_tried(alloc, &mut waiting.tried, &waiting.request, origin, route)
}

fn note_waiting(
    alloc: Global,
    waiting: &mut [Waiting],
    origin: &Origin,
    route: &Route,
) -> Result<(), NoMemory>
    ensures { OnOk result (waiting.new ≡ map (tried_after origin.now route.now) waiting.old) }
{
    for request in waiting.iter_mut() {
        note_tried(alloc, request, origin, route)?;
    }
    Ok(())
}

fn note_out_tried(
    alloc: Global,
    outstanding: &mut Outstanding,
    origin: &Origin,
    route: &Route,
) -> Result<(), NoMemory>
    ensures { OnOk result (outstanding.new ≡ out_tried_after origin.now route.now outstanding.old) }
{
    add_tried(
        alloc,
        &mut outstanding.tried,
        &outstanding.request,
        origin,
        route,
    )
}

fn note_outstanding(
    alloc: Global,
    outstanding: &mut [Outstanding],
    origin: &Origin,
    route: &Route,
) -> Result<(), NoMemory>
    ensures { OnOk result (outstanding.new ≡ map (out_tried_after origin.now route.now) outstanding.old) }
{
    for request in outstanding.iter_mut() {
        note_out_tried(alloc, request, origin, route)?;
    }
    Ok(())
}
