// The line at which the end of a text begins.
ghost use Rattle.inspect_verdict.specs.Ends.{BeginsAtLine, EndsWith};

/// The line of a text, from 1, at which this end of it begins. It takes no memory.
pub fn line_of_end(text: &[u8], end: &[u8]) -> u64
    requires { EndsWith text.now end.now }
    ensures { BeginsAtLine text.now end.now result }
{
    let mut line = 1;
    for byte in &text[..text.len() - end.len()] {
        if *byte == b'\n' {
            line += 1;
        }
    }
    line
}
