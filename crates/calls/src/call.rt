// What is sent to a sheet: events, and the calls of a recorded history.

ghost use Rattle.std.specs.Prelude.{◌≡◌};

// An event of a document: an element starts, a text piece, an element ends.
#[derive(Clone, Copy)]
pub enum Event<'a> {
    Start(u8),
    Text(&'a [u8]),
    End(u8),
}

// A call on a sheet.
#[derive(Clone, Copy)]
pub enum Call<'a> {
    Begin(u8),
    Send(Event<'a>),
    Finish,
}

impl<'a> Call<'a> {
    pub fn start(number: u8) -> Call<'a>
        ensures { result ≡ Call.Send (Event.Start number) }
    {
        Call::Send(Event::Start(number))
    }

    pub fn text(bytes: &'a [u8]) -> Call<'a>
        ensures { result ≡ Call.Send (Event.Text bytes.entry) }
    {
        Call::Send(Event::Text(bytes))
    }

    pub fn end(number: u8) -> Call<'a>
        ensures { result ≡ Call.Send (Event.End number) }
    {
        Call::Send(Event::End(number))
    }
}
