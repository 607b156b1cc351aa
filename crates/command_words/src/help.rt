// What is told of the program itself.
ghost use Rattle.std.specs.Prelude.{◌≡◌, ◌∷◌, [], map};
ghost use Rattle.command_words.specs.Told.{told_by};

/// What the words ask of the program itself.
#[derive(Clone, Copy, Debug, PartialEq, Eq)]
pub enum Told {
    /// `--help`: what each form of words does.
    Help,
    /// `--version`: which program it is.
    Version,
}

/// What the words ask of the program itself: `--help` or `--version` alone; None for all other words.
pub fn asks_of_program(words: &[&str]) -> Option<Told>
    ensures { result ≡ told_by (map (λ word. word.now) words.now) }
{
    match words {
        [word] => asked(word),
        _ => None,
    }
}

// What one word asks of the program itself.
fn asked(word: &str) -> Option<Told>
    ensures { result ≡ told_by (word.now ∷ []) }
{
    match word {
        "--help" => Some(Told::Help),
        "--version" => Some(Told::Version),
        _ => None,
    }
}

/// What `--version` writes, without the end of its line.
pub const VERSION: &str = "paygo 1.0";

/// What `--help` writes: each form of words, what it does, and an example. Each line has its end.
pub const HELP: &str = "\
paygo: the shop's ledger and the core of a device of the OpenPAYGO Token scheme

Forms that read lines from standard input and write their answers (docs/LINES.md):
  paygo serve DB                  the shop, whose tables are in the database DB
      echo '{\"do\":\"show\",\"serial\":\"SHS-17\"}' | paygo serve shop.db
  paygo device FLASH              a device, whose flash is the file FLASH
      printf 'power\\nshow\\n' | paygo device flash.bin
  paygo ring FLASH BANKS          a device whose flash has 2 to 16 banks
      echo power | paygo ring flash.bin 4
  paygo bench DB FLASH            shop and device in one run
      printf 'power\\n{\"do\":\"show\",\"serial\":\"SHS-17\"}\\n' | paygo bench shop.db flash.bin
  paygo sheets DB                 the shop's agents: sheets of tokens, and reports of their sales
      paygo sheets shop.db <reports
  paygo check                     says whether a log is that of a run of shop and device
      paygo check <log

Forms that read no lines:
  paygo sound DB                  checks the shop's tables whole, and says each thing that is wrong
      paygo sound shop.db
  paygo audit DB                  checks each token that the shop keeps
      paygo audit shop.db
  paygo advise DB SERIAL FLOOR    which tokens bring a device up to date whose last count is FLOOR or more
      paygo advise shop.db SHS-17 0
  paygo values KEY START LIMIT    which values can't be sold to a device with this key and starting code
      paygo values 000102030405060708090a0b0c0d0e0f 123456789 0
  paygo fleet SEED DEVICES DAYS   a fleet of devices that the number SEED draws, run in memory
      paygo fleet 42 10 30
  paygo --help                    this text
  paygo --version                 the program's name and version

The status is 0 where all was done; 2 where the words are of no form, 3 where the input failed, 4 where the
output failed, 5 where the database failed, 6 where there was no memory, 7 where the input was too long.
";
