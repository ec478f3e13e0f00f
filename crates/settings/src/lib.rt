// What is handed to a run: the numbers beside what is lent, the settings that they make together, and their limits.
#![tactic(auto)]

ghost use Rattle.std.specs.Prelude.{◌≡◌};
ghost use Rattle.stack_cache.specs.Stack.{is_cache_size};
ghost use Rattle.settings.specs.Settings.{code_length_ok, area_ok, admits};
ghost use Rattle.settings.specs.Setup.{setup, settings, given_setup};

use method_cache::Method;
use stack_cache::StackCache;

// The numbers that a run is given beside what is lent: where the stack area begins and ends, and the method cache.
#[derive(Clone, Copy)]
pub struct Config {
    pub lo: u32,
    pub hi: u32,
    pub method: Method,
}

// What a run is given beside the state and the buffers, and never writes: the code, the recorded interrupts, the table of their handlers, and the
// numbers.
#[derive(Clone, Copy)]
pub struct Given<'a> {
    pub code: &'a [u8],
    pub list: &'a [u8],
    pub table: &'a [u8],
    pub config: Config,
}

// The lengths of code, main memory and local memory in bytes, the number of stack cache words, the stack area, and the method cache.
#[derive(Clone, Copy)]
pub struct Settings {
    pub code: usize,
    pub main: usize,
    pub local: usize,
    pub words: usize,
    pub lo: u32,
    pub hi: u32,
    pub method: Method,
}

fn code_length_ok(n: usize) -> bool
    ensures { result ≡ code_length_ok n }
{
    ((4 <= n) & (n <= 65536)) & (n % 4 == 0)
}

fn area_ok(main: usize, lo: u32, hi: u32) -> bool
    ensures { result ≡ area_ok main lo hi }
{
    ((lo % 4 == 0) & (hi % 4 == 0)) & ((lo <= hi) & (hi as usize <= main))
}

// The stack cache's own type decides which sizes there are.
fn is_cache_size(words: usize) -> bool
    ensures { result ≡ is_cache_size words }
{
    StackCache::new(words).is_ok()
}

impl Config {
    // The settings that it makes with the code and the lengths of what is lent beside it.
    pub fn settings(self, code: &[u8], main: usize, local: usize, words: usize) -> Settings
        ensures { result ≡ settings (setup code.now self) main local words }
    {
        let method = self.method;
        Settings {
            code: code.len(),
            main,
            local,
            words,
            lo: self.lo,
            hi: self.hi,
            method,
        }
    }
}

impl Given<'_> {
    // The settings that it makes with the lengths of what is lent beside it.
    pub fn settings(&self, main: usize, local: usize, words: usize) -> Settings
        ensures { result ≡ settings (given_setup self.now) main local words }
    {
        let code = self.code;
        let config = self.config;
        config.settings(code, main, local, words)
    }
}

impl Settings {
    // Whether the settings lie inside the limits.
    pub fn admits(self) -> bool
        ensures { result ≡ admits self }
    {
        let lengths = code_length_ok(self.code) & ((self.main <= 65536) & (self.local <= 65536));
        let method = self.method;
        let stack = is_cache_size(self.words) & area_ok(self.main, self.lo, self.hi);
        (lengths & stack) & method.is_ok()
    }
}
