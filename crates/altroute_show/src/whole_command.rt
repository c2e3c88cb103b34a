/// What a command that reads its whole input reads, and what it writes it as.
#[derive(Clone, Copy, Debug, PartialEq, Eq)]
pub enum WholeCommand {
    /// One Alt-Svc field value, a line for each alternative.
    ShowAltSvc,
    /// One SVCB or HTTPS record's RDATA in hex, its text.
    ShowHttps,
    /// One SVCB or HTTPS record's RDATA in hex, one line of JSON.
    ShowHttpsJson,
    /// One SVCB or HTTPS record's text, its RDATA in hex.
    WriteHttps,
}
