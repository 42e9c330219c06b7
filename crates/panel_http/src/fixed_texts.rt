//! The responses that take no memory.

ghost use Rattle.std.specs.Prelude.{◌≡◌};
ghost use Rattle.panel_http.specs.Response.{response_text};
ghost use Rattle.panel_http.specs.Responses.{no_memory_said, store_said};

/// The response's text where memory was refused.
pub fn no_memory_text() -> &'static str
    ensures { result.now ≡ response_text no_memory_said }
{
    "HTTP/1.1 503 Service Unavailable\r\nContent-Type: application/json\r\nContent-Length: 22\r\nConnection: close\r\n\r\n{\"answer\":\"no_memory\"}"
}

/// The response's text where the store failed.
pub fn store_text() -> &'static str
    ensures { result.now ≡ response_text store_said }
{
    "HTTP/1.1 500 Internal Server Error\r\nContent-Type: application/json\r\nContent-Length: 18\r\nConnection: close\r\n\r\n{\"answer\":\"store\"}"
}
