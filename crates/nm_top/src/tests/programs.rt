//! Programs of the tests.

// Process 0 receives two letters on channel 0, and every other process sends it one.
pub(super) const TWO_LETTERS: &str = "\
int main(void)
{
    if (self() == 0) {
        printf(\"%d\\n\", receive(1u));
        printf(\"%d\\n\", receive(1u));
    } else {
        send(0, 0, self());
    }
    return 0;
}
";

// A process that sends itself three letters.
pub(super) const TO_ITSELF: &str = "\
int main(void)
{
    send(0, 0, 1);
    send(0, 0, 2);
    receive(1u);
    receive(1u);
    send(0, 0, 3);
    receive(1u);
    return 0;
}
";
